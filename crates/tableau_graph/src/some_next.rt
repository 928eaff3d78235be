ghost use Rattle.std.specs.Prelude.{◌≡◌, ◌<◌, ◌≤◌, length, slice_index_or};
ghost use Rattle.closure_sets.specs.ClosureParts.{count};
ghost use Rattle.closure_sets.specs.Row.{set_of};
ghost use Rattle.tableau_graph.specs.Graph.{graph_of};
ghost use Rattle.tableau_graph.specs.TableauParts.{edges_at, is_some_next, somes_below};

use crate::Tableau;
use closure_sets::{Closure, Row};
use ctl_form::Part;

impl Tableau {
    /// The OR successor of an AND node for a member EXs h of its row. Linear in the members below it.
    pub fn next_or(&self, and: u64, member: u32) -> u64
        requires and { and < length self.now.ands }
        requires member { member ≤ count self.now.closure }
        ensures { result ≡ (graph_of self.now).next_or and member }
    {
        let place = somes_below(self.closure(), &self.ands()[and as usize].row, member);
        self.successor_at(and, place)
    }

    /// The OR node at this place of an AND node's successors; 0 past the last.
    pub fn successor_at(&self, and: u64, place: usize) -> u64
        requires { and < length self.now.ands }
        ensures { result ≡ slice_index_or (edges_at self.now.successors and) place 0 }
    {
        self.successors(and).get(place).copied().unwrap_or(0)
    }
}

/// How many members EXs h the row has below this one.
fn somes_below(c: &Closure, row: &Row, member: u32) -> usize
    requires { member ≤ count c.now }
    ensures { result ≡ somes_below c.now (set_of row.now.words) member }
{
    c.tell_members();
    let mut place = 0;
    for i in 0..member {
        if row.has(i) && is_some_next(c.part(i)) {
            place += 1;
        }
    }
    place
}

/// Whether a part is some EXs h.
pub fn is_some_next(part: Part) -> bool
    ensures { result ≡ is_some_next part }
{
    match part {
        Part::Next { all: true, .. } => false,
        Part::Next { all: false, .. } => true,
        _ => false,
    }
}
