//! What a kind asks: its clauses, then the formulas of the free arcs of side a and of side b.

use crate::table::agree;
use samples::{PHIL, conjuncts, first_kind, pair};
use std::alloc::Global;
use std::test::Fail;

/// The formulas of a kind of philosophers with the clause `AG !(a.C & b.C)`.
const WHOLE: &str =
    "[Always { all: true, f: Not(And(At { side: A, local: 2 }, At { side: B, local: 2 })) }, Always { all: true, f: Implies(At { side: A, local: 0 }, Next { all: false, side: Some(A), f: At { side: A, local: 1 } }) }, Always { all: true, f: Implies(At { side: A, local: 2 }, Next { all: false, side: Some(A), f: At { side: A, local: 0 } }) }, Always { all: true, f: Implies(At { side: B, local: 0 }, Next { all: false, side: Some(B), f: At { side: B, local: 1 } }) }, Always { all: true, f: Implies(At { side: B, local: 2 }, Next { all: false, side: Some(B), f: At { side: B, local: 0 } }) }]";

fn whole_told(alloc: Global) -> Result<String, Fail> {
    let spec = pair(alloc, PHIL, "AG !(a.C & b.C)")?;
    let forms = conjuncts(alloc, &spec)?;
    Ok(format!(in alloc; "{:?}", forms.as_slice())?)
}

#[test]
fn asks_clauses_then_free_arcs(rt: HostRuntime) -> Result<(), Fail> {
    agree(&rt, whole_told(rt.alloc()), WHOLE)
}

const COPY: &str =
    "2 false [At { side: A, local: 0 }, Next { all: false, side: None, f: At { side: B, local: 1 } }]";

fn copy_told(alloc: Global) -> Result<String, Fail> {
    let spec = pair(alloc, PHIL, "a.N; EX b.T")?;
    let kind = first_kind(&spec)?;
    let copy = kind.clauses.copy(alloc)?;
    Ok(format!(in alloc; "{} {} {:?}", copy.len(), copy.is_empty(), copy.as_slice())?)
}

#[test]
fn copies_clauses(rt: HostRuntime) -> Result<(), Fail> {
    agree(&rt, copy_told(rt.alloc()), COPY)
}
