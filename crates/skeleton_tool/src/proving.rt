ghost use Rattle.std.specs.Prelude.{◌≡◌, ◌<◌, [], IfOk, length};
ghost use Rattle.skeleton_tool.specs.Answer.{AnswersBoth, Proves};
ghost use Rattle.skeleton_tool.specs.Command.{spec_limit, solution_limit};
ghost use Rattle.skeleton_tool.specs.Taking.{shelf_seen, EndsAs, KeepsShelf};
ghost use Rattle.solution_text.specs.SolutionText.{AreOver};

use crate::failing::solves_or_writes;
use crate::reading::take_both;
use crate::status::Status;
use crate::stop::Stop;
use ctl_text::Spec;
use edge_io::Shelf;
use pair_structure::Memory;
use solution_text::Solution;
use std::alloc::Global;

/// Writes whether the solution of one file solves the specification of another.
pub(crate) fn prove<S: Shelf>(
    alloc: Global,
    spec: &str,
    sol: &str,
    shelf: &mut S,
    text: &mut Vec<u8>,
) -> Result<Status, Stop>
    requires spec { S.may_ask shelf.old spec.now spec_limit }
    requires sol { S.may_ask shelf.old sol.now solution_limit }
    requires empty { text.old.items ≡ [] }
    ensures ends { EndsAs (AnswersBoth Proves (shelf_seen S.files S.faults S.longs shelf.old shelf.new) spec.now sol.now) text.new.items result }
    ensures kept { KeepsShelf S.files S.faults S.longs S.may_ask shelf.old shelf.new }
{
    let (spec, sol) = take_both(alloc, spec, sol, shelf, text)?;
    let status = tell_solving(alloc, &spec, &sol, text)?;
    Ok(status)
}

/// Writes whether the solution solves, or the first kind that fails.
fn tell_solving(
    alloc: Global,
    spec: &Spec,
    sol: &Solution,
    text: &mut Vec<u8>,
) -> Result<Status, Memory>
    requires over { AreOver spec.now.roles spec.now.kinds sol.now }
    requires empty { text.old.items ≡ [] }
    ensures answer { IfOk result (λ status. Proves spec.now sol.now status text.new.items) }
    ensures some { IfOk result (λ status. 0 < length text.new.items) }
{
    if !solves_or_writes(alloc, spec, sol, text)? {
        return Ok(Status::Fails);
    }
    text.extend_from_slice(b"solves\n")?;
    Ok(Status::Done)
}
