//! The philosopher: it rests, tries, and is in its critical section (Emerson and Clarke 1982).
ghost use Rattle.std.specs.Prelude.{◌≡◌, ◌∷◌, [], IfOk};
ghost use Rattle.big_system.specs.Philosophers.{philosopher, philosopher_arcs};

use pair_structure::{LocalArc, Memory, Name, Role};
use std::alloc::{AllocError, Global};

pub(crate) const NONCRITICAL: u8 = 0;

pub(crate) const TRYING: u8 = 1;

pub(crate) const CRITICAL: u8 = 2;

/// The role of each process.
pub(crate) fn philosopher(alloc: Global) -> Result<Role, Memory>
    ensures { IfOk result (λ role. role ≡ philosopher) }
{
    let name = name(alloc, "phil")?;
    let locals = local_names(alloc)?;
    let arcs = arcs(alloc)?;
    match Role::make(name, locals, NONCRITICAL, arcs) {
        Ok(role) => Ok(role),
        Err(_) => Err(Memory),
    }
}

/// The name that the text spells.
pub(crate) fn name(alloc: Global, text: &str) -> Result<Name, Memory>
    ensures { IfOk result (λ name. name ≡ text.now) }
{
    match Name::make(alloc, text) {
        Ok(name) => Ok(name),
        Err(_) => Err(Memory),
    }
}

fn local_names(alloc: Global) -> Result<Vec<Name>, Memory>
    ensures { IfOk result (λ names. names.items ≡ philosopher.locals) }
{
    let mut names = Vec::with_capacity(alloc, 3)?;
    names.push(name(alloc, "N")?)?;
    names.push(name(alloc, "T")?)?;
    names.push(name(alloc, "C")?)?;
    Ok(names)
}

fn arcs(alloc: Global) -> Result<Vec<LocalArc>, AllocError>
    ensures { IfOk result (λ arcs. arcs.items ≡ philosopher_arcs) }
{
    let mut arcs = Vec::with_capacity(alloc, 3)?;
    arcs.push(arc(NONCRITICAL, TRYING, true))?;
    arcs.push(arc(TRYING, CRITICAL, false))?;
    arcs.push(arc(CRITICAL, NONCRITICAL, true))?;
    Ok(arcs)
}

fn arc(from: u8, to: u8, free: bool) -> LocalArc
    ensures { result ≡ record { from = from; to = to; free = free } }
{
    LocalArc { from, to, free }
}
