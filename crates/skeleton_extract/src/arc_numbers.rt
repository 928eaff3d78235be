ghost use Rattle.std.specs.Prelude.{◌≡◌, ◌<◌, ◌≤◌, ℕ, All, AllPairs, length, slice_index_or};
ghost use Rattle.pair_structure.specs.declared.side.LocalArc.{LocalArc};
ghost use Rattle.pair_structure.specs.inside.ArcTable.{IsInTable};
ghost use Rattle.skeleton_extract.specs.inside.ArcNumbers.{AreApart, IsNumbering, number_at};

use pair_structure::{LocalArc, MAX_ARCS, MAX_LOCALS, Role};

/// The numbers of the arcs of a role, by the two local states that each joins. They lie on the stack.
#[derive(Drop)]
pub(crate) struct ArcNumbers {
    rows: [[u8; MAX_LOCALS]; MAX_LOCALS],
}

impl ArcNumbers {
    pub(crate) fn of_role(role: &Role) -> ArcNumbers
        ensures { IsNumbering result.rows role.now.arcs }
    {
        // `locals` tells that this is a role; `arcs` does not.
        let _locals = role.locals();
        ArcNumbers::of(role.arcs())
    }

    fn of(arcs: &[LocalArc]) -> ArcNumbers
        requires in_table { All IsInTable arcs.now }
        requires apart { AllPairs AreApart arcs.now }
        requires few { length arcs.now ≤ MAX_ARCS }
        ensures { IsNumbering result.rows arcs.now }
    {
        let mut rows = [[0; MAX_LOCALS]; MAX_LOCALS];
        for (n, arc) in arcs.iter().enumerate() {
            put(&mut rows, arc.from, arc.to, n as u8);
        }
        ArcNumbers { rows }
    }

    /// The number of the arc from p to q, if there is one.
    pub(crate) fn number(&self, p: u8, q: u8) -> u8
        ensures { result ≡ number_at self.now.rows p q }
    {
        match self.rows.get(p as usize) {
            Some(row) => number_in(row, q as usize),
            None => 0,
        }
    }
}

fn number_in(row: &[u8], q: usize) -> u8
    ensures { result ≡ slice_index_or row.now q 0 }
{
    match row.get(q) {
        Some(number) => *number,
        None => 0,
    }
}

fn put(rows: &mut [[u8; MAX_LOCALS]; MAX_LOCALS], p: u8, q: u8, number: u8)
    requires p_in { p < MAX_LOCALS }
    requires q_in { q < MAX_LOCALS }
    ensures here { number_at rows.new p q ≡ number }
    ensures elsewhere { (x y : ℕ) → ((p ≡ x) × (q ≡ y) → ⊥) → number_at rows.new x y ≡ number_at rows.old x y }
{
    rows[p as usize] = with_number(rows[p as usize], q, number);
}

fn with_number(mut row: [u8; MAX_LOCALS], q: u8, number: u8) -> [u8; MAX_LOCALS]
    requires { q < MAX_LOCALS }
    ensures here { slice_index_or result q 0 ≡ number }
    ensures elsewhere { (y : ℕ) → (q ≡ y → ⊥) → slice_index_or result y 0 ≡ slice_index_or row y 0 }
{
    row[q as usize] = number;
    row
}
