ghost use Rattle.std.specs.Prelude.{◌≡◌, ◌↔◌, ◌<◌, ◌≤◌, IsTrue, IfOk, IfErr, IfSome, IfNone, All, Contains, codes, length, position};
ghost use Rattle.pair_structure.specs.declared.limits.TheConstants.{MAX_LOCALS};
ghost use Rattle.std.specs.Str.{bytes_eq};
ghost use Rattle.pair_structure.specs.Structure.{IsPairStructure};
ghost use Rattle.text_cause.specs.Cause.{IsFree};
ghost use Rattle.ctl_text.specs.Value.{number_in};
ghost use Rattle.strict_text.specs.View.{line_of};
ghost use Rattle.strict_text.specs.Words.{words_of};
ghost use Rattle.solution_text.specs.Item.{Said, head_line, words_for};
ghost use Rattle.solution_text.specs.State.{MayStand, opened, behind, with_state, with_move, with_ended};
ghost use Rattle.solution_text.specs.Cause.{LacksHead, LabelBlocks, PairBlocks, KindBlocks, StateBlocks, EndBlocks, IsWhole, BarsLine, Stands, MaySay, Takes};
ghost use Rattle.text_cause.specs.Answers.{IsBadBy};
ghost use Rattle.solution_text.specs.Answers.{HasRoles, IsTakenAs};
ghost use Rattle.solution_text.specs.inside.View.{group_of, state_of, said};

use crate::item::{Item, said_by};
use crate::reader::{Place, Reader, may_stand};
use ctl_form::PairSpec;
use pair_structure::{Move, Name, PairStructure, Role, StructureFault};
use std::alloc::{AllocError, Global};
use strict_text::{Line, is_strict};
use text_cause::{LineFault, TextCause};

/// What stands below the line. Linear in the line, and at the end of a kind in its states and moves.
pub(crate) fn take_line<'a>(
    alloc: Global,
    roles: &'a [Role],
    reader: Reader<'a>,
    line: Line<'_>,
) -> Result<Reader<'a>, LineFault>
    requires { All (HasRoles (length roles.now)) reader.left.now }
    ensures taken { IfOk result (λ r. Takes roles.now (state_of reader.entry) (line_of line.entry) (state_of r)) }
    ensures roles { IfOk result (λ r. All (HasRoles (length roles.now)) r.left.now) }
    ensures refused { IfErr result (IsBadBy (Stands (state_of reader.entry) (line_of line.entry))) }
{
    if !is_strict(line.bytes) {
        return Err(LineFault::Bad(TextCause::NotText));
    }
    let Some(item) = placed_item(&reader, line) else {
        if lacks_head(&reader.place, line.bytes) {
            return Err(LineFault::Bad(TextCause::BadHead));
        }
        return Err(LineFault::Bad(TextCause::BadLine));
    };
    let reader = take_item(alloc, roles, reader, item)?;
    Ok(reader)
}

/// What the line says, if it ends and may stand there.
fn placed_item<'a>(reader: &Reader<'_>, line: Line<'a>) -> Option<Item<'a>>
    ensures some { IfSome result (λ item. MaySay (state_of reader.now) (line_of line.entry) (said item)) }
    ensures none { IfNone result ((item : Said) → MaySay (state_of reader.now) (line_of line.entry) item → ⊥) }
{
    if !line.is_ended {
        return None;
    }
    let Some(item) = said_by(line.bytes) else {
        return None;
    };
    if !may_stand(&reader.place, reader.left, item) {
        return None;
    }
    Some(item)
}

/// Whether the first line has other words than the head.
fn lacks_head(place: &Place<'_>, line: &[u8]) -> bool
    ensures { IsTrue result ↔ LacksHead (group_of place.now) line.now }
{
    match place {
        Place::BeforeHead => !is_head(line),
        _ => false,
    }
}

fn is_head(line: &[u8]) -> bool
    ensures { IsTrue result ↔ (words_of line.now ≡ words_for head_line) }
{
    is_head_text(line)
}

fn is_head_text(line: &[u8]) -> bool
    ensures { IsTrue result ↔ (line.now ≡ codes "solution 1") }
{
    line == b"solution 1".as_slice()
}

/// What stands below a line that says this, if nothing stands against it.
fn take_item<'a>(
    alloc: Global,
    roles: &'a [Role],
    reader: Reader<'a>,
    item: Item<'_>,
) -> Result<Reader<'a>, LineFault>
    requires may { MayStand (group_of reader.place) reader.left.now (said item) }
    requires roles { All (HasRoles (length roles.now)) reader.left.now }
    ensures taken { IfOk result (λ r. IsTakenAs roles.now (state_of reader.entry) (said item.entry) (state_of r)) }
    ensures roles { IfOk result (λ r. All (HasRoles (length roles.now)) r.left.now) }
    ensures refused { IfErr result (IsBadBy (BarsLine (state_of reader.entry) (said item.entry))) }
{
    let Reader { made, left, place } = reader;
    match item {
        Item::Head => Ok(Reader {
            made,
            left,
            place: Place::AmongKinds,
        }),
        Item::Kind(name) => {
            let (place, left) = opened(alloc, roles, left, name)?;
            Ok(Reader { made, left, place })
        }
        Item::State(p, q) => {
            let place = with_state(place, p, q)?;
            Ok(Reader { made, left, place })
        }
        Item::Step(m) => {
            let place = with_move(place, m)?;
            Ok(Reader { made, left, place })
        }
        Item::End => {
            let made = with_ended(alloc, made, place)?;
            Ok(Reader {
                made,
                left,
                place: Place::AmongKinds,
            })
        }
        Item::Done => Ok(Reader {
            made,
            left,
            place: Place::AfterDone,
        }),
    }
}

/// The first of the kinds that are left, opened, and the others.
fn opened<'a>(
    alloc: Global,
    roles: &'a [Role],
    left: &'a [PairSpec],
    name: &[u8],
) -> Result<(Place<'a>, &'a [PairSpec]), LineFault>
    requires some { 0 < length left.now }
    requires roles { All (HasRoles (length roles.now)) left.now }
    ensures place { IfOk result (λ x. group_of x.0 ≡ opened roles.now left.now) }
    ensures left { IfOk result (λ x. x.1.now ≡ behind left.now) }
    ensures free { IfOk result (λ x. IsFree (KindBlocks left.now name.now)) }
    ensures refused { IfErr result (IsBadBy (KindBlocks left.now name.now)) }
{
    let Some((kind, left)) = left.split_first() else {
        unreachable!();
    };
    if kind.name.as_str().as_bytes() != name {
        return Err(LineFault::Bad(TextCause::UnknownName));
    }
    let place = Place::InKind {
        a: &roles[kind.role_a as usize],
        b: &roles[kind.role_b as usize],
        states: Vec::new(alloc),
        moves: Vec::new(alloc),
    };
    Ok((place, left))
}

/// The open kind with one more state.
fn with_state<'a>(place: Place<'a>, p: &[u8], q: &[u8]) -> Result<Place<'a>, LineFault>
    ensures place { IfOk result (λ r. group_of r ≡ with_state (group_of place.entry) p.now q.now) }
    ensures free { IfOk result (λ r. IsFree (StateBlocks (group_of place.entry) p.now q.now)) }
    ensures refused { IfErr result (IsBadBy (StateBlocks (group_of place.entry) p.now q.now)) }
{
    match place {
        Place::InKind {
            a,
            b,
            mut states,
            moves,
        } => {
            let label = label_of(a, b, p, q)?;
            if states.push(label).is_err() {
                return Err(LineFault::Memory);
            }
            Ok(Place::InKind {
                a,
                b,
                states,
                moves,
            })
        }
        place => Ok(place),
    }
}

/// The numbers of a local state of each role, by their names.
fn label_of(a: &Role, b: &Role, p: &[u8], q: &[u8]) -> Result<(u8, u8), LineFault>
    ensures label { IfOk result (λ label. label ≡ (number_in a.now.locals p.now, number_in b.now.locals q.now)) }
    ensures free { IfOk result (λ label. IsFree (LabelBlocks a.now b.now p.now q.now)) }
    ensures refused { IfErr result (IsBadBy (LabelBlocks a.now b.now p.now q.now)) }
{
    let Some(p) = local_of(a.locals(), p) else {
        return Err(LineFault::Bad(TextCause::UnknownName));
    };
    let Some(q) = local_of(b.locals(), q) else {
        return Err(LineFault::Bad(TextCause::UnknownName));
    };
    Ok((p, q))
}

/// The number of the local state of this name.
fn local_of(names: &[Name], name: &[u8]) -> Option<u8>
    requires { length names.now ≤ MAX_LOCALS }
    ensures number { IfSome result (λ n. n ≡ number_in names.now name.now) }
    ensures some { IfSome result (λ n. Contains names.now name.now) }
    ensures none { IfNone result (Contains names.now name.now → ⊥) }
{
    match local_place(names, name) {
        Some(n) => Some(n as u8),
        None => None,
    }
}

fn local_place(names: &[Name], name: &[u8]) -> Option<usize>
    ensures number { result ≡ position (λ x. bytes_eq x name.now) names.now }
    ensures within { IfSome result (λ n. n < length names.now) }
{
    names.iter().position(|x| x.as_str().as_bytes() == name)
}

/// The open kind with one more move.
fn with_move(place: Place<'_>, m: Move) -> Result<Place<'_>, AllocError>
    ensures { IfOk result (λ r. group_of r ≡ with_move (group_of place.entry) m) }
{
    match place {
        Place::InKind {
            a,
            b,
            states,
            mut moves,
        } => {
            moves.push(m)?;
            Ok(Place::InKind {
                a,
                b,
                states,
                moves,
            })
        }
        place => Ok(place),
    }
}

/// The structures with that of the open kind.
fn with_ended(
    alloc: Global,
    mut made: Vec<PairStructure>,
    place: Place<'_>,
) -> Result<Vec<PairStructure>, LineFault>
    ensures made { IfOk result (λ r. r.items ≡ with_ended made.items (group_of place.entry)) }
    ensures free { IfOk result (λ r. IsFree (EndBlocks (group_of place.entry))) }
    ensures whole { IfOk result (λ r. IsWhole (group_of place.entry)) }
    ensures refused { IfErr result (IsBadBy (EndBlocks (group_of place.entry))) }
{
    match place {
        Place::InKind {
            a,
            b,
            states,
            moves,
        } => {
            let m = match structure_of(alloc, a, b, &states, &moves) {
                Ok(m) => m,
                Err(fault) => return Err(fault),
            };
            if made.push(m).is_err() {
                return Err(LineFault::Memory);
            }
            Ok(made)
        }
        _ => Ok(made),
    }
}

/// The structure with these states and moves, if no fault stands against them.
fn structure_of(
    alloc: Global,
    a: &Role,
    b: &Role,
    states: &[(u8, u8)],
    moves: &[Move],
) -> Result<PairStructure, LineFault>
    ensures structure { IfOk result (λ m. m ≡ record { states = states.now; moves = moves.now }) }
    ensures free { IfOk result (λ m. IsFree (PairBlocks a.now b.now states.now moves.now)) }
    ensures whole { IfOk result (λ m. IsPairStructure a.now b.now states.now moves.now) }
    ensures refused { IfErr result (IsBadBy (PairBlocks a.now b.now states.now moves.now)) }
{
    match PairStructure::make(alloc, a, b, states, moves) {
        Ok(m) => Ok(m),
        Err(StructureFault::Memory) => Err(LineFault::Memory),
        Err(fault) => Err(LineFault::Bad(TextCause::NotAPair { fault })),
    }
}
