ghost use Rattle.std.specs.Prelude.{◌≡◌, ◌<◌, ◌++◌, [], IfOk, OnOk, length, codes};
ghost use Rattle.skeleton_tool.specs.Answer.{AnswersSynth, AnswersKinds};
ghost use Rattle.skeleton_tool.specs.Command.{spec_limit};
ghost use Rattle.skeleton_tool.specs.Taking.{shelf_seen, EndsAs, KeepsShelf};

use crate::reading::take_spec;
use crate::solving::solve_all;
use crate::status::Status;
use crate::stop::Stop;
use ctl_form::PairSpec;
use ctl_text::Spec;
use edge_io::Shelf;
use pair_structure::Memory;
use solution_text::{Solution, write_solution};
use std::alloc::Global;

/// Writes a solution of the specification of this file, or the first kind that has none.
pub(crate) fn synth<S: Shelf>(
    alloc: Global,
    file: &str,
    shelf: &mut S,
    text: &mut Vec<u8>,
) -> Result<Status, Stop>
    requires allowed { S.may_ask shelf.old file.now spec_limit }
    requires empty { text.old.items ≡ [] }
    ensures ends { EndsAs (AnswersSynth (shelf_seen S.files S.faults S.longs shelf.old shelf.new) file.now) text.new.items result }
    ensures kept { KeepsShelf S.files S.faults S.longs S.may_ask shelf.old shelf.new }
{
    let spec = take_spec(alloc, file, shelf, text)?;
    let status = answer_kinds(alloc, &spec, text)?;
    Ok(status)
}

/// Writes a solution of the kinds, or the first that has none.
fn answer_kinds(alloc: Global, spec: &Spec, text: &mut Vec<u8>) -> Result<Status, Memory>
    requires { text.old.items ≡ [] }
    ensures answer { IfOk result (λ status. AnswersKinds spec.now.roles spec.now.kinds status text.new.items) }
    ensures some { IfOk result (λ status. 0 < length text.new.items) }
{
    let mut structures = Vec::new(alloc);
    let roles = spec.network().roles();
    match solve_all(alloc, roles, spec.kinds(), spec.normals(), &mut structures)? {
        None => {
            let sol = Solution::make(spec, structures);
            write_solution(alloc, spec, &sol, text)?;
            Ok(Status::Done)
        }
        Some(first) => {
            write_unsatisfiable(&spec.kinds()[first], text)?;
            Ok(Status::Unsatisfiable)
        }
    }
}

fn write_unsatisfiable(kind: &PairSpec, text: &mut Vec<u8>) -> Result<(), Memory>
    ensures { OnOk result (text.new.items ≡ text.old.items ++ codes "unsatisfiable " ++ kind.now.name ++ codes "\n") }
{
    text.extend_from_slice(b"unsatisfiable ")?;
    text.extend_from_slice(kind.name.as_str().as_bytes())?;
    text.extend_from_slice(b"\n")?;
    Ok(())
}
