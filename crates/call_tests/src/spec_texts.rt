//! The canonical texts of specifications and of formulas, which are read again as they were written.

use crate::table::expect;
use ctl_text::{Spec, write_spec};
use samples::{BOUND, cut, pair, spec, to_slashes};
use std::alloc::Global;
use std::test::Fail;

/// Lines of specifications, and what is written between the head and `done`. A `/` is a line feed.
const SPECS: &str = " =
#c// =
role r/local L/local M/start M/arc M L free/arc L M/end/ = role r/local L/local M/start M/arc M L free/arc L M/end/
role r/local L/local M/start M/arc M L/arc L M/end/kind k r r/require (((a.L)))->b.M->A[ a.L&b.L W EXa true ]/end/ = role r/local L/local M/start M/arc M L/arc L M/end/kind k r r/require (a.L -> (b.M -> A[(a.L & b.L) W EXa true]))/end/
role  phil/\tlocal N/local T/start N/arc N T free/arc T N/end/kind k phil phil/require AG !(a.T & b.T)/end/# p/process p phil/process q phil/edge q p k/ = role phil/local N/local T/start N/arc N T free/arc T N/end/kind k phil phil/require AG !(a.T & b.T)/end/process p phil/process q phil/edge q p k/";

fn written(alloc: Global, spec: &Spec) -> Result<String, Fail> {
    let mut bytes = Vec::new(alloc);
    write_spec(alloc, spec, &mut bytes)?;
    to_slashes(alloc, &bytes)
}

/// What is written between the head and `done`, where the text is read again and so written again.
fn canonical(alloc: Global, spec: &Spec) -> Result<String, Fail> {
    let text = written(alloc, spec)?;
    let body = cut(text.as_str(), "/").1;
    let body = body.strip_suffix("done/").unwrap_or("");
    let again = written(alloc, &samples::spec(alloc, body)?)?;
    if again.as_str() != text.as_str() {
        return Err(Fail::from("not written again"));
    }
    Ok(String::from_str(alloc, body)?)
}

fn spec_told(alloc: Global, lines: &str) -> Result<String, Fail> {
    canonical(alloc, &spec(alloc, lines)?)
}

#[test]
fn writes_specifications(rt: HostRuntime) -> Result<(), Fail> {
    expect(&rt, rt.alloc(), SPECS, spec_told)
}

/// A formula as it is spelled, and its canonical text.
const FORMULAS: &str = "true = true
 a.N   = a.N
!b.T = !b.T
! ! a.C = !!a.C
a.N & b.T & a.C = ((a.N & b.T) & a.C)
a.N | b.T | a.C = ((a.N | b.T) | a.C)
a.N -> b.T -> a.C = (a.N -> (b.T -> a.C))
a.N & b.T | a.C & b.C = ((a.N & b.T) | (a.C & b.C))
a.N | b.T & a.C = (a.N | (b.T & a.C))
a.N|b.T->a.C = ((a.N | b.T) -> a.C)
(a.N -> b.T) -> a.C = ((a.N -> b.T) -> a.C)
((a.N)) = a.N
!a.N & b.T = (!a.N & b.T)
AG a.N & b.T = (AG a.N & b.T)
AG !(a.C & b.C) = AG !(a.C & b.C)
AX a.N = AX a.N
AXa AXb EX a.N = AXa AXb EX a.N
EXa EXb a.N = EXa EXb a.N
AF EF AG EG false = AF EF AG EG false
A[a.N U b.T] = A[a.N U b.T]
A [ a.N -> b.T W E[true U a.C] ] = A[(a.N -> b.T) W E[true U a.C]]
E[a.N W b.T]&true = (E[a.N W b.T] & true)";

fn formula_told(alloc: Global, text: &str) -> Result<String, Fail> {
    let whole = canonical(alloc, &pair(alloc, BOUND, text)?)?;
    let clause = cut(whole.as_str(), "require ").1;
    Ok(String::from_str(alloc, cut(clause, "/").0)?)
}

#[test]
fn writes_formulas(rt: HostRuntime) -> Result<(), Fail> {
    expect(&rt, rt.alloc(), FORMULAS, formula_told)
}
