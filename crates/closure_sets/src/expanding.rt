ghost use Rattle.std.specs.Prelude.{◌≡◌, ◌<◌, ◌≤◌, ◌||◌, [], IfOk, OnOk};
ghost use Rattle.closure_sets.specs.ClosureParts.{count};
ghost use Rattle.closure_sets.specs.Cover.{AreCover};
ghost use Rattle.closure_sets.specs.Expansion.{expand, expansion, one_sided, finish, clashes, rows_of};
ghost use Rattle.closure_sets.specs.Firsts.{AreNoted, AreFirsts};
ghost use Rattle.closure_sets.specs.Found.{sets_of};
ghost use Rattle.closure_sets.specs.Full.{EachRow, IsExpansion};
ghost use Rattle.closure_sets.specs.Label.{is_plain};
ghost use Rattle.closure_sets.specs.inside.Marks.{AreMarks};
ghost use Rattle.closure_sets.specs.Row.{set_of, add};
ghost use Rattle.closure_sets.specs.inside.Ways.{ways_rows, treat_rows, with_row};
ghost use Rattle.ctl_form.specs.declared.limits.TheConstants.{MAX_MEMBERS};

use crate::found::Found;
use crate::marks::Marks;
use crate::ways::{Ways, ways_of};
use crate::{Closure, Row};
use pair_structure::{Memory, Side};
use std::alloc::Global;

/// The fully expanded rows that hold the seed, at the label with local state `a` on side a and `b` on side b (Emerson and Clarke 1982, with
/// propositional members settled by the label; this project). Exponential in the disjunctions and untils that the label leaves open.
pub fn full_rows(alloc: Global, c: &Closure, a: u8, b: u8, seed: &Row) -> Result<Vec<Row>, Memory>
    ensures rows { IfOk result (λ rows. AreFirsts (expansion c.now (a, b) (set_of seed.now.words)) (sets_of rows.items)) }
    ensures full { IfOk result (λ rows. EachRow (IsExpansion c.now (a, b) (set_of seed.now.words)) (sets_of rows.items)) }
    ensures cover { IfOk result (λ rows. AreCover c.now (a, b) (set_of seed.now.words) (sets_of rows.items)) }
{
    let marks = Marks::of(alloc, c, a, b)?;
    let mut found = Found::new(alloc);
    expand(c, &marks, &mut found, *seed, Row::empty(), c.count())?;
    Ok(found.into_rows())
}

/// Of the fully expanded rows those in which all E untils that are put off go on along one side: those of side a, and then those of side b
/// that are none of side a. They need not cover what states make true, but are few: many untils that are put off at once give two rows, where
/// each of them doubles the rows of the expansion.
pub fn one_sided_rows(
    alloc: Global,
    c: &Closure,
    a: u8,
    b: u8,
    seed: &Row,
) -> Result<Vec<Row>, Memory>
    ensures rows { IfOk result (λ rows. AreFirsts (one_sided c.now (a, b) (set_of seed.now.words)) (sets_of rows.items)) }
    ensures full { IfOk result (λ rows. EachRow (IsExpansion c.now (a, b) (set_of seed.now.words)) (sets_of rows.items)) }
{
    let marks_a = Marks::of(alloc, c, a, b)?.along(Side::A);
    let mut found = Found::new(alloc);
    expand(c, &marks_a, &mut found, *seed, Row::empty(), c.count())?;
    let marks_b = marks_a.along(Side::B);
    expand(c, &marks_b, &mut found, *seed, Row::empty(), c.count())?;
    Ok(found.into_rows())
}

/// Finds the rows of an expansion in which at most so many members are still to be treated.
#[cycle(treating)]
fn expand(
    c: &Closure,
    marks: &Marks,
    found: &mut Found,
    row: Row,
    treated: Row,
    left: u32,
) -> Result<(), Memory>
    requires marks { AreMarks c.now (marks.now.a, marks.now.b) marks.now.values.items (set_of marks.now.wrong.words) }
    ensures { OnOk result (AreNoted (sets_of found.old) (expand c.now marks.now.only (is_plain c.now (marks.now.a, marks.now.b)) (clashes c.now (marks.now.a, marks.now.b)) left (set_of row.words) (set_of treated.words)) (sets_of found.new)) }
{
    if marks.clashes(c, &row) {
        return Ok(());
    }
    if left == 0 {
        return finish(c, found, row);
    }
    let Some(member) = row.lowest_open(&treated, c.count()) else {
        return finish(c, found, row);
    };
    let ways = ways_of(c, marks, &row, member);
    expand_each(c, marks, found, ways, treated.with(member), left - 1)
}

/// Expands the rows in which a member is treated.
#[cycle(treating)]
fn expand_each(
    c: &Closure,
    marks: &Marks,
    found: &mut Found,
    ways: Ways,
    treated: Row,
    left: u32,
) -> Result<(), Memory>
    requires marks { AreMarks c.now (marks.now.a, marks.now.b) marks.now.values.items (set_of marks.now.wrong.words) }
    ensures { OnOk result (AreNoted (sets_of found.old) (treat_rows c.now marks.now.only (is_plain c.now (marks.now.a, marks.now.b)) (clashes c.now (marks.now.a, marks.now.b)) left (set_of treated.words) (ways_rows ways)) (sets_of found.new)) }
{
    expand(c, marks, found, ways.first, treated, left)?;
    expand_way(c, marks, found, ways.second, treated, left)?;
    expand_way(c, marks, found, ways.third, treated, left)
}

/// Expands a row, if there is one.
#[cycle(treating)]
fn expand_way(
    c: &Closure,
    marks: &Marks,
    found: &mut Found,
    way: Option<Row>,
    treated: Row,
    left: u32,
) -> Result<(), Memory>
    requires marks { AreMarks c.now (marks.now.a, marks.now.b) marks.now.values.items (set_of marks.now.wrong.words) }
    ensures { OnOk result (AreNoted (sets_of found.old) (treat_rows c.now marks.now.only (is_plain c.now (marks.now.a, marks.now.b)) (clashes c.now (marks.now.a, marks.now.b)) left (set_of treated.words) (with_row way [])) (sets_of found.new)) }
{
    let Some(row) = way else {
        return Ok(());
    };
    expand(c, marks, found, row, treated, left)
}

/// Finds a row whose members are all treated: it asks for a move of some side.
fn finish(c: &Closure, found: &mut Found, row: Row) -> Result<(), Memory>
    ensures { OnOk result (AreNoted (sets_of found.old) (finish c.now (set_of row.words)) (sets_of found.new)) }
{
    let a = c.some_move(Side::A);
    let b = c.some_move(Side::B);
    if moves(&row, a, b) {
        found.note(row)?;
        return Ok(());
    }
    found.note(row.with(a))?;
    found.note(row.with(b))?;
    Ok(())
}

fn moves(row: &Row, a: u32, b: u32) -> bool
    requires a { a < MAX_MEMBERS }
    requires b { b < MAX_MEMBERS }
    ensures { result ≡ (set_of row.now.words a || set_of row.now.words b) }
{
    row.has(a) || row.has(b)
}
