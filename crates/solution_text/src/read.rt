ghost use Rattle.std.specs.Prelude.{◌≡◌, ◌<◌, ℕ, IfOk, IfErr, MatchResult, All, List, length};
ghost use Rattle.pair_structure.specs.Structure.{Structure};
ghost use Rattle.text_cause.specs.declared.cause.TextCause.{TextCause};
ghost use Rattle.text_cause.specs.Answers.{IsFaultAt};
ghost use Rattle.solution_text.specs.SolutionText.{AreOver};
ghost use Rattle.solution_text.specs.Answers.{HasRoles, IsRefusal};
ghost use Rattle.solution_text.specs.Text.{IsSolutionText, IsRefused, Gives, EndStands};
ghost use Rattle.solution_text.specs.inside.View.{state_of};

use crate::reader::{Place, Reader};
use crate::solution::Solution;
use crate::take::take_line;
use ctl_form::PairSpec;
use ctl_text::Spec;
use pair_structure::{PairStructure, Role};
use std::alloc::Global;
use strict_text::cut_line;
use text_cause::{LineFault, TextCause, TextFault};

/// The solution of which the bytes are a text, or the first bad line with its lowest cause. One pass; the text's lines are not kept.
pub fn read_solution(alloc: Global, spec: &Spec, bytes: &[u8]) -> Result<Solution, TextFault>
    ensures text { IfOk result (λ sol. IsSolutionText spec.now.roles spec.now.kinds bytes.now sol) }
    ensures over { IfOk result (λ sol. AreOver spec.now.roles spec.now.kinds sol) }
    ensures refused { IfErr result (IsRefusal spec.now.roles spec.now.kinds bytes.now) }
    ensures only { (v : List Structure) → IsSolutionText spec.now.roles spec.now.kinds bytes.now v → MatchResult result (λ sol. sol ≡ v) (λ fault. fault ≡ TextFault.Memory) }
    ensures refused_only { (at : ℕ) (cause : TextCause) → IsRefused spec.now.roles spec.now.kinds bytes.now at cause → MatchResult result (λ sol. ⊥) (IsFaultAt at cause) }
{
    match read_structures(alloc, spec.network().roles(), spec.kinds(), bytes) {
        Ok(structures) => Ok(Solution::make(spec, structures)),
        Err(fault) => Err(fault),
    }
}

/// The structures of which the bytes are a text, one for each of the kinds over these roles.
fn read_structures(
    alloc: Global,
    roles: &[Role],
    kinds: &[PairSpec],
    bytes: &[u8],
) -> Result<Vec<PairStructure>, TextFault>
    requires { All (HasRoles (length roles.now)) kinds.now }
    ensures text { IfOk result (λ made. IsSolutionText roles.now kinds.now bytes.now made.items) }
    ensures refused { IfErr result (IsRefusal roles.now kinds.now bytes.now) }
{
    let mut reader = Reader {
        made: Vec::new(alloc),
        left: kinds,
        place: Place::BeforeHead,
    };
    let mut rest = bytes;
    let mut line: u64 = 1;
    while !rest.is_empty() {
        let (front, behind) = cut_line(rest);
        reader = match take_line(alloc, roles, reader, front) {
            Ok(reader) => reader,
            Err(LineFault::Bad(what)) => return Err(TextFault::At { line, what }),
            Err(LineFault::Memory) => return Err(TextFault::Memory),
        };
        rest = behind;
        line += 1;
    }
    match ended(reader) {
        Ok(made) => Ok(made),
        Err(what) => Err(TextFault::At { line, what }),
    }
}

/// The structures that the last line leaves, or why the text may not end there.
fn ended(reader: Reader<'_>) -> Result<Vec<PairStructure>, TextCause>
    ensures ok { IfOk result (λ made. Gives (state_of reader.entry) made.items) }
    ensures refused { IfErr result (EndStands (state_of reader.entry).group) }
{
    let Reader { made, place, .. } = reader;
    match place {
        Place::BeforeHead => Err(TextCause::BadHead),
        Place::AfterDone => Ok(made),
        _ => Err(TextCause::BadLine),
    }
}
