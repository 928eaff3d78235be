ghost use Rattle.std.specs.Prelude.{◌≡◌, All, IfOk};
ghost use Rattle.pair_structure.specs.Role.{IsRole};

use crate::Process;
use pair_structure::{Memory, Role};
use std::alloc::Global;

/// Equal roles, each of which is one.
pub(crate) fn role_copies(alloc: Global, roles: &[Role]) -> Result<Vec<Role>, Memory>
    ensures same { IfOk result (λ copies. copies.items ≡ roles.now) }
    ensures roles { IfOk result (λ copies. All IsRole roles.now) }
{
    let mut copies = Vec::with_capacity(alloc, roles.len())?;
    for role in roles {
        copies.push(role_copy(alloc, role)?)?;
    }
    Ok(copies)
}

fn role_copy(alloc: Global, role: &Role) -> Result<Role, Memory>
    ensures same { IfOk result (λ copy. copy ≡ role.now) }
    ensures role { IsRole role.now }
{
    let _locals = role.locals();
    let copy = role.copy(alloc)?;
    Ok(copy)
}

pub(crate) fn process_copies(alloc: Global, processes: &[Process]) -> Result<Vec<Process>, Memory>
    ensures { IfOk result (λ copies. copies.items ≡ processes.now) }
{
    let mut copies = Vec::with_capacity(alloc, processes.len())?;
    for process in processes {
        let name = process.name.copy(alloc)?;
        copies.push(Process {
            name,
            role: process.role,
            start: process.start,
        })?;
    }
    Ok(copies)
}
