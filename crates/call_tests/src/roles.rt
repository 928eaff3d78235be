//! Roles: the first fault of parts that make none, and what a role and its copy have.

use crate::table::expect;
use pair_structure::{LocalArc, Name, Role, RoleFault};
use samples::{byte, cut};
use std::alloc::Global;
use std::test::Fail;

/// The names of local states, the starts, and arcs as their two ends, `129*01` for so many.
const ROLES: &str =
    "N T C | 0 | 01 12 20 = phil [Name { text: \"N\" }, Name { text: \"T\" }, Name { text: \"C\" }] 0 [0] [LocalArc { from: 0, to: 1, free: false }, LocalArc { from: 1, to: 2, free: false }, LocalArc { from: 2, to: 0, free: false }]
N T | 1 | 01 10 = phil [Name { text: \"N\" }, Name { text: \"T\" }] 1 [1] [LocalArc { from: 0, to: 1, free: false }, LocalArc { from: 1, to: 0, free: false }]
N T | 1 0 | 01 10 = phil [Name { text: \"N\" }, Name { text: \"T\" }] 1 [1, 0] [LocalArc { from: 0, to: 1, free: false }, LocalArc { from: 1, to: 0, free: false }]
 | 0 |  = no local state
a b c d e f g h i j k l m n o p q r s t u v w x y z A B C D E F G | 33 |  = more than 32 local states
N T N N | 4 |  = local state 2 has the name of an earlier one
N T N |  |  = local state 2 has the name of an earlier one
N T |  | 129*01 = no start
N T | 2 | 129*01 = the start is no local state
N T | 0 0 2 |  = the start is no local state
N T | 0 1 0 1 | 129*01 = start 2 is an earlier one again
N T | 1 | 129*02 = more than 128 arcs
N T | 0 | 128*01 10 = more than 128 arcs
N T | 0 | 128*01 = arc 1 has the ends of an earlier one
N T | 0 | 00 02 = arc 1 has an end that is no local state
N T | 0 | 01 20 = arc 1 has an end that is no local state
N T | 0 | 01 01 11 00 = arc 2 ends where it begins
N T C | 0 | 01 10 01 = arc 2 has the ends of an earlier one
N T C | 0 | 01 12 = no arc leaves local state 2
N T C | 0 |  = no arc leaves local state 0";

fn locals(alloc: Global, spelled: &str) -> Result<Vec<Name>, Fail> {
    let mut names = Vec::new(alloc);
    for word in spelled.split_whitespace() {
        names.push(Name::make(alloc, word)?)?;
    }
    Ok(names)
}

fn starts(alloc: Global, spelled: &str) -> Result<Vec<u8>, Fail> {
    let mut starts = Vec::new(alloc);
    for word in spelled.split_whitespace() {
        starts.push(byte(word))?;
    }
    Ok(starts)
}

fn arcs(alloc: Global, spelled: &str) -> Result<Vec<LocalArc>, Fail> {
    let mut arcs = Vec::new(alloc);
    for word in spelled.split_whitespace() {
        let (count, ends) = word.split_once('*').unwrap_or(("1", word));
        let ends = byte(ends);
        for _ in 0..byte(count) {
            arcs.push(LocalArc {
                from: ends / 10,
                to: ends % 10,
                free: false,
            })?;
        }
    }
    Ok(arcs)
}

fn role_text(alloc: Global, role: &Role) -> Result<String, Fail> {
    let (name, locals) = (role.name().as_str(), role.locals());
    let (start, starts) = (role.start(), role.starts());
    Ok(format!(in alloc; "{name} {locals:?} {start} {starts:?} {:?}", role.arcs())?)
}

/// The copy of the role with these parts, or their first fault.
fn role_told(alloc: Global, parts: &str) -> Result<String, Fail> {
    let (names, rest) = cut(parts, "|");
    let (starts, ends) = cut(rest, "|");
    match made(alloc, names, starts, ends)? {
        Ok(role) => role_text(alloc, &role.copy(alloc)?),
        Err(fault) => Ok(format!(in alloc; "{fault}")?),
    }
}

/// What is made of these parts; of one start by the call for one.
fn made(
    alloc: Global,
    names: &str,
    spelled: &str,
    ends: &str,
) -> Result<Result<Role, RoleFault>, Fail> {
    let name = Name::make(alloc, "phil")?;
    let (locals, arcs) = (locals(alloc, names)?, arcs(alloc, ends)?);
    let starts = starts(alloc, spelled)?;
    if starts.len() == 1 {
        return Ok(Role::make(name, locals, starts[0], arcs));
    }
    Ok(Role::with_starts(name, locals, starts, arcs))
}

#[test]
fn makes_roles_or_names_the_first_fault(rt: HostRuntime) -> Result<(), Fail> {
    expect(&rt, rt.alloc(), ROLES, role_told)
}
