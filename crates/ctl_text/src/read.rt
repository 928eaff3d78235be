ghost use Rattle.std.specs.Prelude.{◌≡◌, ℕ, IfOk, IfErr, MatchResult, All, length, map, ◌<◌, ◌≤◌, ◌^◌};
ghost use Rattle.interconnection.specs.Graph.{degree_of};
ghost use Rattle.interconnection.specs.Network.{AreLawful};
ghost use Rattle.ctl_text.specs.Value.{SpecParts, kind_ends};
ghost use Rattle.ctl_text.specs.Text.{IsSpecText, IsRefused, Gives};
ghost use Rattle.ctl_text.specs.inside.Judged.{IsBadEnd};
ghost use Rattle.ctl_text.specs.SoundValue.{IsOverRoles};
ghost use Rattle.ctl_text.specs.inside.Sound.{IsSoundState};
ghost use Rattle.ctl_text.specs.inside.View.{state_of};
ghost use Rattle.text_cause.specs.declared.cause.TextCause.{TextCause};
ghost use Rattle.text_cause.specs.Answers.{IsFaultAt};
ghost use Rattle.ctl_text.specs.Answers.{IsRefusal};
ghost use Rattle.ctl_text.specs.inside.Made.{value_of, IsWhole};

use crate::format::Format;
use crate::pairs::Pairs;
use crate::place::{Place, Reader};
use crate::spec::Spec;
use crate::take::take_line;
use ctl_form::{Normal, PairSpec};
use interconnection::{Edge, MAX_NEIGHBOURS, Network, NetworkFault, Process};
use pair_structure::Memory;
use std::alloc::Global;
use strict_text::cut_line;
use text_cause::{LineFault, TextCause, TextFault};

/// What a text makes: the network of its processes, its kinds of pairs, and the normal form of each.
#[derive(Drop)]
pub(crate) struct Made {
    pub network: Network,
    pub kinds: Vec<PairSpec>,
    pub normals: Vec<Normal>,
}

/// The specification of which the bytes are a text, or the first bad line with its lowest cause.
pub fn read_spec(alloc: Global, bytes: &[u8]) -> Result<Spec, TextFault>
    ensures text { IfOk result (λ spec. IsSpecText bytes.now spec) }
    ensures refused { IfErr result (IsRefusal bytes.now) }
    ensures only { (v : SpecParts) → IsSpecText bytes.now v → MatchResult result (λ spec. spec ≡ v) (λ fault. fault ≡ TextFault.Memory) }
    ensures refused_only { (at : ℕ) (cause : TextCause) → IsRefused bytes.now at cause → MatchResult result (λ spec. ⊥) (IsFaultAt at cause) }
    ensures roles { IfOk result (λ spec. All (IsOverRoles (length spec.roles)) spec.kinds) }
{
    match read_text(alloc, bytes) {
        Ok(
            Made {
                network,
                kinds,
                normals,
            },
        ) => Ok(Spec::of(network, kinds, normals)),
        Err(fault) => Err(fault),
    }
}

fn read_text(alloc: Global, bytes: &[u8]) -> Result<Made, TextFault>
    ensures text { IfOk result (λ made. IsSpecText bytes.now (value_of made)) }
    ensures whole { IfOk result IsWhole }
    ensures refused { IfErr result (IsRefusal bytes.now) }
{
    let mut reader = Reader::new(alloc, Format::First, Place::BeforeHead);
    let mut rest = bytes;
    let mut line: u64 = 1;
    while !rest.is_empty() {
        let (front, behind) = cut_line(rest);
        reader = match take_line(alloc, reader, front.bytes) {
            Ok(reader) => reader,
            Err(LineFault::Bad(what)) => return Err(TextFault::At { line, what }),
            Err(LineFault::Memory) => return Err(TextFault::Memory),
        };
        rest = behind;
        line += 1;
    }
    match ended(alloc, reader) {
        Ok(made) => Ok(made),
        Err(LineFault::Bad(what)) => Err(TextFault::At { line, what }),
        Err(LineFault::Memory) => Err(TextFault::Memory),
    }
}

/// The value that the last line leaves, or why the text may not end there.
fn ended(alloc: Global, reader: Reader) -> Result<Made, LineFault>
    requires { IsSoundState (state_of reader) }
    ensures ok { IfOk result (λ made. Gives (state_of reader) (value_of made)) }
    ensures whole { IfOk result IsWhole }
    ensures refused { IfErr result (IsBadEnd (state_of reader).group) }
{
    let Reader {
        pairs,
        processes,
        edges,
        place,
        ..
    } = reader;
    match place {
        Place::BeforeHead => Err(LineFault::Bad(TextCause::BadHead)),
        Place::AfterDone => {
            let made = made_of(alloc, pairs, processes.into_vec(), edges.into_vec())?;
            Ok(made)
        }
        _ => Err(LineFault::Bad(TextCause::BadLine)),
    }
}

/// What these parts make.
fn made_of(
    alloc: Global,
    pairs: Pairs,
    processes: Vec<Process>,
    edges: Vec<Edge>,
) -> Result<Made, Memory>
    requires lawful { AreLawful pairs.roles (kind_ends pairs.kinds) processes.items edges.items }
    requires few { (k : ℕ) → degree_of edges.items k ≤ MAX_NEIGHBOURS }
    ensures made { IfOk result (λ made. value_of made ≡ record { roles = pairs.roles; kinds = pairs.kinds; processes = processes.items; edges = edges.items }) }
    ensures whole { IfOk result IsWhole }
{
    let (roles, kinds, normals) = pairs.into_parts();
    let ends = ends_of(alloc, &kinds)?;
    match Network::make(alloc, roles, ends, processes, edges) {
        Ok(network) => Ok(Made {
            network,
            kinds,
            normals,
        }),
        Err(NetworkFault::Memory) => Err(Memory),
        Err(_) => unreachable!(),
    }
}

/// The numbers of the two roles of each kind.
fn ends_of(alloc: Global, kinds: &[PairSpec]) -> Result<Vec<(u8, u8)>, Memory>
    ensures { IfOk result (λ ends. ends.items ≡ kind_ends kinds.now) }
{
    let mut ends = Vec::with_capacity(alloc, kinds.len())?;
    for kind in kinds {
        ends.push((kind.role_a, kind.role_b))?;
    }
    Ok(ends)
}
