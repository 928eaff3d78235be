ghost use Rattle.std.specs.Prelude.{◌≡◌, ◌<◌, [], IfOk, length};
ghost use Rattle.skeleton_tool.specs.Answer.{AnswersMigrate};
ghost use Rattle.skeleton_tool.specs.Command.{spec_limit};
ghost use Rattle.skeleton_tool.specs.Migrate.{Migrates};
ghost use Rattle.skeleton_tool.specs.Taking.{shelf_seen, EndsAs, KeepsShelf};

use crate::reading::take_spec;
use crate::status::Status;
use crate::stop::Stop;
use ctl_text::{Spec, write_spec};
use edge_io::Shelf;
use pair_structure::Memory;
use std::alloc::Global;

/// Writes the canonical text of the specification of this file.
pub(crate) fn migrate<S: Shelf>(
    alloc: Global,
    file: &str,
    shelf: &mut S,
    text: &mut Vec<u8>,
) -> Result<Status, Stop>
    requires allowed { S.may_ask shelf.old file.now spec_limit }
    requires empty { text.old.items ≡ [] }
    ensures ends { EndsAs (AnswersMigrate (shelf_seen S.files S.faults S.longs shelf.old shelf.new) file.now) text.new.items result }
    ensures kept { KeepsShelf S.files S.faults S.longs S.may_ask shelf.old shelf.new }
{
    let spec = take_spec(alloc, file, shelf, text)?;
    let status = rewrite(alloc, &spec, text)?;
    Ok(status)
}

fn rewrite(alloc: Global, spec: &Spec, text: &mut Vec<u8>) -> Result<Status, Memory>
    requires { text.old.items ≡ [] }
    ensures answer { IfOk result (λ status. Migrates spec.now status text.new.items) }
    ensures some { IfOk result (λ status. 0 < length text.new.items) }
{
    write_spec(alloc, spec, text)?;
    Ok(Status::Done)
}
