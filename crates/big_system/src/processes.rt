//! The processes p0, p1 and so on.
ghost use Rattle.std.specs.Prelude.{◌≡◌, IfOk};
ghost use Rattle.big_system.specs.Systems.{name_of, process_of, processes_of};

use crate::philosopher::{NONCRITICAL, name};
use interconnection::Process;
use pair_structure::{Memory, Name};
use std::alloc::Global;

/// So many processes, each a philosopher.
pub(crate) fn processes_of(alloc: Global, count: u32) -> Result<Vec<Process>, Memory>
    ensures { IfOk result (λ processes. processes.items ≡ processes_of count) }
{
    let mut processes = Vec::with_capacity(alloc, count as usize)?;
    for k in 0..count {
        processes.push(process_of(alloc, k)?)?;
    }
    Ok(processes)
}

fn process_of(alloc: Global, k: u32) -> Result<Process, Memory>
    ensures { IfOk result (λ process. process ≡ process_of k) }
{
    let name = name_of(alloc, k)?;
    Ok(Process {
        name,
        role: 0,
        start: NONCRITICAL,
    })
}

fn name_of(alloc: Global, k: u32) -> Result<Name, Memory>
    ensures { IfOk result (λ name. name ≡ name_of k) }
{
    let text = format!(in alloc; "p{k}")?;
    name(alloc, text.as_str())
}
