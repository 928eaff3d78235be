ghost use Rattle.std.specs.Prelude.{◌≡◌, ◌<◌, ℕ, ◌&&◌, ◌↔◌, Contains, IsTrue, length, true, OnOk};
ghost use Rattle.pair_structure.specs.Lists.{list_at};
ghost use Rattle.deletion_rules.specs.inside.Cursors.{AreCursors};
ghost use Rattle.deletion_rules.specs.inside.Spread.{IsAdmitted, IsArrowTo, IsNextTime, IsReaching, Visits};
ghost use Rattle.deletion_rules.specs.Targets.{IsTarget};
ghost use Rattle.deletion_rules.specs.inside.Tests.{has_member};
ghost use Rattle.deletion_rules.specs.declared.edges.Arrow.{Arrow};

use crate::cursors::is_through;
use crate::edges::Arrow;
use crate::target::Target;
use pair_structure::{Lists, Memory, Side};
use tableau_graph::Tableau;

/// What is marked: a target, at the living nodes of a tableau.
#[derive(Clone, Copy)]
pub(crate) struct Marking<'a> {
    pub(crate) tableau: &'a Tableau,
    pub(crate) lives: &'a [bool],
    pub(crate) target: Target,
}

/// The marks so far, the nodes that were marked last, and for each node how many of its successors are known to be reached.
#[derive(Drop)]
pub(crate) struct Front {
    pub(crate) marks: Vec<Option<u64>>,
    pub(crate) nodes: Vec<u64>,
    pub(crate) cursors: Vec<usize>,
}

/// Marks the nodes that lead to the OR nodes, where the until asks no more of them. Linear in the arrows; each successor is passed once in all
/// rounds.
pub(crate) fn visit_each(
    m: &Marking<'_>,
    arrows: &Lists<Arrow>,
    reached: &[bool],
    round: u64,
    ors: &[u64],
    front: &mut Front,
) -> Result<(), Memory>
    requires lives { length m.now.lives.now ≡ length m.now.tableau.now.ands }
    requires reached { length reached.now ≡ length m.now.tableau.now.ors }
    requires target { IsTarget m.now.tableau.now.closure m.now.target }
    requires arrows { (o : ℕ) (arrow : Arrow) → Contains ors.now o → Contains (list_at arrows.now o) arrow → IsReaching m.now.tableau.now reached.now arrow }
    requires marks { length front.old.marks.items ≡ length m.now.tableau.now.ands }
    requires cursors { AreCursors (length m.now.tableau.now.ands) m.now.tableau.now.successors reached.now true front.old.cursors.items }
    ensures visited { OnOk result (Visits m.now.tableau.now m.now.lives.now reached.now m.now.target round (IsArrowTo arrows.now ors.now) front.old.marks.items front.old.nodes.items front.new.marks.items front.new.nodes.items) }
    ensures cursors { OnOk result (AreCursors (length m.now.tableau.now.ands) m.now.tableau.now.successors reached.now true front.new.cursors.items) }
{
    for or in ors {
        visit_arrows(m, arrows.list(*or as usize), reached, round, front)?;
    }
    Ok(())
}

fn visit_arrows(
    m: &Marking<'_>,
    arrows: &[Arrow],
    reached: &[bool],
    round: u64,
    front: &mut Front,
) -> Result<(), Memory>
    requires lives { length m.now.lives.now ≡ length m.now.tableau.now.ands }
    requires reached { length reached.now ≡ length m.now.tableau.now.ors }
    requires target { IsTarget m.now.tableau.now.closure m.now.target }
    requires arrows { (arrow : Arrow) → Contains arrows.now arrow → IsReaching m.now.tableau.now reached.now arrow }
    requires marks { length front.old.marks.items ≡ length m.now.tableau.now.ands }
    requires cursors { AreCursors (length m.now.tableau.now.ands) m.now.tableau.now.successors reached.now true front.old.cursors.items }
    ensures visited { OnOk result (Visits m.now.tableau.now m.now.lives.now reached.now m.now.target round (Contains arrows.now) front.old.marks.items front.old.nodes.items front.new.marks.items front.new.nodes.items) }
    ensures cursors { OnOk result (AreCursors (length m.now.tableau.now.ands) m.now.tableau.now.successors reached.now true front.new.cursors.items) }
{
    for arrow in arrows {
        visit(m, *arrow, reached, round, front)?;
    }
    Ok(())
}

/// Marks the node of the arrow with the round, if it has no mark and the until asks no more of it.
fn visit(
    m: &Marking<'_>,
    arrow: Arrow,
    reached: &[bool],
    round: u64,
    front: &mut Front,
) -> Result<(), Memory>
    requires lives { length m.now.lives.now ≡ length m.now.tableau.now.ands }
    requires reached { length reached.now ≡ length m.now.tableau.now.ors }
    requires target { IsTarget m.now.tableau.now.closure m.now.target }
    requires arrow { IsReaching m.now.tableau.now reached.now arrow }
    requires marks { length front.old.marks.items ≡ length m.now.tableau.now.ands }
    requires cursors { AreCursors (length m.now.tableau.now.ands) m.now.tableau.now.successors reached.now true front.old.cursors.items }
    ensures visited { OnOk result (Visits m.now.tableau.now m.now.lives.now reached.now m.now.target round (λ other. other ≡ arrow) front.old.marks.items front.old.nodes.items front.new.marks.items front.new.nodes.items) }
    ensures cursors { OnOk result (AreCursors (length m.now.tableau.now.ands) m.now.tableau.now.successors reached.now true front.new.cursors.items) }
{
    if front.marks[arrow.node as usize].is_some() {
        return Ok(());
    }
    if is_admitted(m, arrow, reached, &mut front.cursors) {
        front.nodes.push(arrow.node)?;
        front.marks[arrow.node as usize] = Some(round);
    }
    Ok(())
}

/// Whether the node lives and has the until with its part f, and each successor of it is reached, or for an until of some path that of EXs of
/// the until.
fn is_admitted(m: &Marking<'_>, arrow: Arrow, reached: &[bool], cursors: &mut [usize]) -> bool
    requires lives { length m.now.lives.now ≡ length m.now.tableau.now.ands }
    requires reached { length reached.now ≡ length m.now.tableau.now.ors }
    requires target { IsTarget m.now.tableau.now.closure m.now.target }
    requires arrow { IsReaching m.now.tableau.now reached.now arrow }
    requires cursors { AreCursors (length m.now.tableau.now.ands) m.now.tableau.now.successors reached.now true cursors.old }
    ensures admits { IsTrue result ↔ IsAdmitted m.now.tableau.now m.now.lives.now reached.now m.now.target arrow }
    ensures cursors { AreCursors (length m.now.tableau.now.ands) m.now.tableau.now.successors reached.now true cursors.new }
{
    m.tableau.tell_rules();
    if !m.lives[arrow.node as usize] || !pursues(m.tableau, m.target, arrow.node) {
        return false;
    }
    if m.target.all {
        return is_through(
            m.tableau.successors(arrow.node),
            reached,
            true,
            &mut cursors[arrow.node as usize],
        );
    }
    is_next_time(m.tableau, m.target, arrow.member)
}

/// Whether the row has the until and its part f.
fn pursues(t: &Tableau, target: Target, n: u64) -> bool
    requires n { n < length t.now.ands }
    requires target { IsTarget t.now.closure target }
    ensures { result ≡ (has_member t.now n target.member && has_member t.now n target.f) }
{
    t.closure().tell_members();
    let row = t.ands()[n as usize].row;
    row.has(target.member) && row.has(target.f)
}

/// Whether the member is EXs of the until.
fn is_next_time(t: &Tableau, target: Target, member: u32) -> bool
    requires { IsTarget t.now.closure target }
    ensures { IsTrue result ↔ IsNextTime t.now.closure target.member member }
{
    let c = t.closure();
    member == c.after(Side::A, target.member) || member == c.after(Side::B, target.member)
}
