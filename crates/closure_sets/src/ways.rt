ghost use Rattle.std.specs.Prelude.{◌≡◌, ◌<◌, ◌≤◌, false, [], ◌∷◌};
ghost use Rattle.closure_sets.specs.ClosureParts.{count, after};
ghost use Rattle.closure_sets.specs.Expansion.{ways, later_rows};
ghost use Rattle.closure_sets.specs.Label.{is_plain, part_of};
ghost use Rattle.closure_sets.specs.inside.Marks.{AreMarks};
ghost use Rattle.closure_sets.specs.Row.{add, set_of};
ghost use Rattle.closure_sets.specs.inside.Ways.{ways_rows};
ghost use Rattle.ctl_form.specs.declared.part.Part.TheVariants.{Either, Until};
ghost use Rattle.pair_structure.specs.declared.side.Side.TheVariants.{A, B};
ghost use Rattle.ctl_form.specs.declared.limits.TheConstants.{MAX_MEMBERS};

use crate::marks::Marks;
use crate::{Closure, Row};
use ctl_form::Part;
use pair_structure::Side;

/// The rows in which a member is treated, in their order.
#[derive(Clone, Copy)]
pub(crate) struct Ways {
    pub(crate) first: Row,
    pub(crate) second: Option<Row>,
    pub(crate) third: Option<Row>,
}

/// An until of the closure: its member number, whether it is one of all paths, and its parts f and g.
#[derive(Clone, Copy)]
struct UntilMember {
    member: u32,
    all: bool,
    f: u32,
    g: u32,
}

/// How the member of the row can be met.
pub(crate) fn ways_of(c: &Closure, marks: &Marks, row: &Row, member: u32) -> Ways
    requires marks { AreMarks c.now (marks.now.a, marks.now.b) marks.now.values.items (set_of marks.now.wrong.words) }
    requires member { member < count c.now }
    ensures { ways_rows result ≡ ways c.now marks.now.only (is_plain c.now (marks.now.a, marks.now.b)) (set_of row.now.words) member (part_of c.now member) }
{
    c.tell_members();
    match c.part(member) {
        Part::Both { f, g } => one(row.with(f).with(g)),
        Part::Either { f, g } => either_ways(c, marks, row, f, g),
        Part::Until { all, f, g, .. } => {
            until_ways(c, marks, row, &UntilMember { member, all, f, g })
        }
        _ => one(*row),
    }
}

fn one(row: Row) -> Ways
    ensures { ways_rows result ≡ set_of row.words ∷ [] }
{
    Ways {
        first: row,
        second: None,
        third: None,
    }
}

fn two(first: Row, second: Row) -> Ways
    ensures { ways_rows result ≡ set_of first.words ∷ set_of second.words ∷ [] }
{
    Ways {
        first,
        second: Some(second),
        third: None,
    }
}

fn either_ways(c: &Closure, marks: &Marks, row: &Row, f: u32, g: u32) -> Ways
    requires marks { AreMarks c.now (marks.now.a, marks.now.b) marks.now.values.items (set_of marks.now.wrong.words) }
    requires f { f < count c.now }
    requires g { g < count c.now }
    requires few { count c.now ≤ MAX_MEMBERS }
    ensures { ways_rows result ≡ ways c.now marks.now.only (is_plain c.now (marks.now.a, marks.now.b)) (set_of row.now.words) 0 (Either f g) }
{
    if row.has(f) {
        return one(*row);
    }
    if row.has(g) {
        return one(*row);
    }
    if marks.is_plain(c, f) {
        return one(row.with(f));
    }
    if marks.is_plain(c, g) {
        return one(row.with(g));
    }
    two(row.with(f), row.with(g))
}

fn until_ways(c: &Closure, marks: &Marks, row: &Row, until: &UntilMember) -> Ways
    requires marks { AreMarks c.now (marks.now.a, marks.now.b) marks.now.values.items (set_of marks.now.wrong.words) }
    requires f { until.now.f < count c.now }
    requires g { until.now.g < count c.now }
    requires few { count c.now ≤ MAX_MEMBERS }
    requires member { until.now.member < count c.now }
    requires after_a { after c.now A until.now.member < count c.now }
    requires after_b { after c.now B until.now.member < count c.now }
    ensures { ways_rows result ≡ ways c.now marks.now.only (is_plain c.now (marks.now.a, marks.now.b)) (set_of row.now.words) until.now.member (Until until.now.all false until.now.f until.now.g) }
{
    if row.has(until.g) {
        return one(*row);
    }
    if marks.is_plain(c, until.g) {
        return one(row.with(until.g));
    }
    let now = row.with(until.g);
    let later = row.with(until.f);
    let after_a = c.after(Side::A, until.member);
    let after_b = c.after(Side::B, until.member);
    if until.all {
        return two(now, later.with(after_a).with(after_b));
    }
    match marks.only {
        Some(Side::A) => two(now, later.with(after_a)),
        Some(Side::B) => two(now, later.with(after_b)),
        None => Ways {
            first: now,
            second: Some(later.with(after_a)),
            third: Some(later.with(after_b)),
        },
    }
}
