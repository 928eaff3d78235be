ghost use Rattle.std.specs.Prelude.{◌≡◌, ◌<◌, ◌≤◌, Some, None, IfOk, length, not, cond};
ghost use Rattle.ctl_form.specs.Members.{IsBelow};
ghost use Rattle.closure_sets.specs.ClosureParts.{count};
ghost use Rattle.closure_sets.specs.Expansion.{clashes};
ghost use Rattle.closure_sets.specs.Label.{is_local, is_plain, is_wrong, is_yes, value_of_two, and_of, or_of};
ghost use Rattle.closure_sets.specs.inside.Marks.{AreMarks, AreValues, AreWrong, part_value, value_at};
ghost use Rattle.closure_sets.specs.Row.{add, set_of};
ghost use Rattle.ctl_form.specs.declared.limits.TheConstants.{MAX_MEMBERS};

use crate::{Closure, Row};
use ctl_form::Part;
use pair_structure::{Memory, Side};
use std::alloc::Global;

/// What is noted for an expansion: the label, what it tells of a closure's members (the truth of the propositional ones, and which ones no row
/// may have), and the side along which each E until that is put off goes on, if one is named.
#[derive(Drop)]
pub(crate) struct Marks {
    a: u8,
    b: u8,
    pub(crate) only: Option<Side>,
    values: Vec<Option<bool>>,
    wrong: Row,
}

impl Marks {
    pub(crate) fn of(alloc: Global, c: &Closure, a: u8, b: u8) -> Result<Marks, Memory>
        ensures { IfOk result (λ marks. (marks.a ≡ a) × (marks.b ≡ b) × (marks.only ≡ None) × AreMarks c.now (a, b) marks.values.items (set_of marks.wrong.words)) }
    {
        let values = values_of(alloc, c, a, b)?;
        let wrong = wrong_row(c, a, b);
        Ok(Marks {
            a,
            b,
            only: None,
            values,
            wrong,
        })
    }

    /// The same for the expansion in which all go on along this side.
    pub(crate) fn along(self, side: Side) -> Marks
        ensures { result ≡ record { a = self.a; b = self.b; only = Some side; values = self.values; wrong = self.wrong } }
    {
        Marks {
            only: Some(side),
            ..self
        }
    }

    /// Whether the member is propositional, and true by the label.
    pub(crate) fn is_plain(&self, c: &Closure, member: u32) -> bool
        requires marks { AreMarks c.now (self.now.a, self.now.b) self.now.values.items (set_of self.now.wrong.words) }
        requires member { member < count c.now }
        ensures { result ≡ is_plain c.now (self.now.a, self.now.b) member }
    {
        is_true(self.values[member as usize])
    }

    /// Whether the row has `false` or a literal that the label makes false.
    pub(crate) fn clashes(&self, c: &Closure, row: &Row) -> bool
        requires marks { AreMarks c.now (self.now.a, self.now.b) self.now.values.items (set_of self.now.wrong.words) }
        ensures { result ≡ clashes c.now (self.now.a, self.now.b) (set_of row.now.words) }
    {
        row.lowest_shared(&self.wrong, c.count()).is_some()
    }
}

fn is_true(value: Option<bool>) -> bool
    ensures { result ≡ is_yes value }
{
    match value {
        Some(x) => x,
        None => false,
    }
}

fn values_of(alloc: Global, c: &Closure, a: u8, b: u8) -> Result<Vec<Option<bool>>, Memory>
    ensures { IfOk result (λ values. AreValues c.now (a, b) (count c.now) values.items) }
{
    let mut values = Vec::with_capacity(alloc, c.count() as usize)?;
    for member in 0..c.count() {
        let value = value_of(&values, c.part(member), a, b);
        values.push(value)?;
    }
    Ok(values)
}

fn value_of(values: &[Option<bool>], part: Part, a: u8, b: u8) -> Option<bool>
    requires { IsBelow (length values.now) part }
    ensures { result ≡ part_value (a, b) values.now part }
{
    match part {
        Part::Yes => Some(true),
        Part::No => Some(false),
        Part::Lit { side, local, is } => Some(literal_of(a, b, side, local, is)),
        Part::Both { f, g } => both_of(values[f as usize], values[g as usize]),
        Part::Either { f, g } => either_of(values[f as usize], values[g as usize]),
        Part::Next { .. } => None,
        Part::Until { .. } => None,
    }
}

fn literal_of(a: u8, b: u8, side: Side, local: u8, is: bool) -> bool
    ensures { result ≡ cond is (is_local (a, b) side local) (not (is_local (a, b) side local)) }
{
    let held = is_local(a, b, side, local);
    if is { held } else { !held }
}

fn is_local(a: u8, b: u8, side: Side, local: u8) -> bool
    ensures { result ≡ is_local (a, b) side local }
{
    match side {
        Side::A => a == local,
        Side::B => b == local,
    }
}

fn both_of(x: Option<bool>, y: Option<bool>) -> Option<bool>
    ensures { result ≡ value_of_two and_of x y }
{
    let x = x?;
    let y = y?;
    Some(x && y)
}

fn either_of(x: Option<bool>, y: Option<bool>) -> Option<bool>
    ensures { result ≡ value_of_two or_of x y }
{
    let x = x?;
    let y = y?;
    Some(x || y)
}

fn wrong_row(c: &Closure, a: u8, b: u8) -> Row
    ensures { AreWrong c.now (a, b) (set_of result.words) }
{
    let mut row = Row::empty();
    for member in 0..c.count() {
        row = marked(row, member, is_wrong(c.part(member), a, b));
    }
    row
}

fn marked(row: Row, member: u32, wrong: bool) -> Row
    requires { member < MAX_MEMBERS }
    ensures { set_of result.words ≡ cond wrong (add (set_of row.words) member) (set_of row.words) }
{
    if wrong {
        return row.with(member);
    }
    row
}

fn is_wrong(part: Part, a: u8, b: u8) -> bool
    ensures { result ≡ is_wrong (a, b) part }
{
    match part {
        Part::No => true,
        Part::Lit { side, local, is } => !literal_of(a, b, side, local, is),
        _ => false,
    }
}
