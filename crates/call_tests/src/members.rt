//! The members of closures and their numbers. The lines were worked out by hand from the rule of the walk.

use crate::table::agree;
use ctl_form::{Formula, Normal};
use pair_structure::Side;
use samples::{FAIR, PHIL, normal};
use std::alloc::Global;
use std::test::Fail;

/// The roots, and then the members for philosophers of which a never waits: `AG !a.T` and the formulas of the free arcs.
const QUIET: &str = "[5, 12, 19, 26, 33]
Yes
No
Next { all: false, side: A, f: 0 }
Next { all: false, side: B, f: 0 }
Lit { side: A, local: 1, is: false }
Until { all: true, weak: true, f: 4, g: 1 }
Next { all: true, side: A, f: 5 }
Next { all: true, side: B, f: 5 }
Lit { side: A, local: 0, is: false }
Lit { side: A, local: 1, is: true }
Next { all: false, side: A, f: 9 }
Either { f: 8, g: 10 }
Until { all: true, weak: true, f: 11, g: 1 }
Next { all: true, side: A, f: 12 }
Next { all: true, side: B, f: 12 }
Lit { side: A, local: 2, is: false }
Lit { side: A, local: 0, is: true }
Next { all: false, side: A, f: 16 }
Either { f: 15, g: 17 }
Until { all: true, weak: true, f: 18, g: 1 }
Next { all: true, side: A, f: 19 }
Next { all: true, side: B, f: 19 }
Lit { side: B, local: 0, is: false }
Lit { side: B, local: 1, is: true }
Next { all: false, side: B, f: 23 }
Either { f: 22, g: 24 }
Until { all: true, weak: true, f: 25, g: 1 }
Next { all: true, side: A, f: 26 }
Next { all: true, side: B, f: 26 }
Lit { side: B, local: 2, is: false }
Lit { side: B, local: 0, is: true }
Next { all: false, side: B, f: 30 }
Either { f: 29, g: 31 }
Until { all: true, weak: true, f: 32, g: 1 }
Next { all: true, side: A, f: 33 }
Next { all: true, side: B, f: 33 }
";

/// The roots and the members, each on a line; a member that is not found where it stands is marked.
fn members_of(alloc: Global, normal: &Normal) -> Result<String, Fail> {
    let mut text = format!(in alloc; "{:?}\n", normal.roots())?;
    for member in 0..normal.count() {
        let part = normal.part(member);
        if normal.find(part) != Some(member) {
            text.push_str("not found: ")?;
        }
        text.push_str(&format!(in alloc; "{part:?}\n")?)?;
    }
    Ok(text)
}

fn quiet_told(alloc: Global) -> Result<String, Fail> {
    members_of(alloc, &normal(alloc, PHIL, "AG !a.T")?)
}

#[test]
fn numbers_members(rt: HostRuntime) -> Result<(), Fail> {
    agree(&rt, quiet_told(rt.alloc()), QUIET)
}

/// `EXa` so many times, and the atom.
fn chain(alloc: Global, length: usize, atom: Formula) -> Result<Formula, Fail> {
    let mut f = atom;
    for _ in 0..length {
        f = Formula::Next {
            all: false,
            side: Some(Side::A),
            f: Box::new(alloc, f)?,
        };
    }
    Ok(f)
}

/// Eight chains of 63 members, and one of `last` more than its atom.
fn chains(alloc: Global, last: usize) -> Result<Vec<Formula>, Fail> {
    let mut made = Vec::new(alloc);
    for local in 0..9 {
        let side = Side::A;
        let length = if local < 8 { 62 } else { last };
        made.push(chain(alloc, length, Formula::At { side, local })?)?;
    }
    Ok(made)
}

fn count_told(alloc: Global, conjuncts: &[Formula]) -> Result<String, Fail> {
    match Normal::of(alloc, conjuncts) {
        Ok(normal) => Ok(format!(in alloc; "{}", normal.count())?),
        Err(fault) => Ok(format!(in alloc; "{fault}")?),
    }
}

/// The count of members of fair philosophers, and of chains up to the limit and one past it.
fn counts_told(alloc: Global) -> Result<String, Fail> {
    let fair = normal(alloc, PHIL, FAIR)?.count();
    let most = count_told(alloc, &chains(alloc, 3)?)?;
    let over = count_told(alloc, &chains(alloc, 4)?)?;
    Ok(format!(in alloc; "{fair}, {most}, {over}")?)
}

#[test]
fn counts_members(rt: HostRuntime) -> Result<(), Fail> {
    agree(
        &rt,
        counts_told(rt.alloc()),
        "54, 512, the closure has more than 512 members",
    )
}
