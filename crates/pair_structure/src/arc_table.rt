ghost use Rattle.std.specs.Prelude.{◌≡◌, ◌<◌, ℕ, All, false, true, slice_index_or, slice_set, length};
ghost use Rattle.pair_structure.specs.inside.ArcTable.{is_marked, IsInTable, IsTableOf};

use crate::{LocalArc, MAX_LOCALS};

/// Which local states the arcs of a role join, to be asked many times. It lies on the stack.
#[derive(Drop)]
pub(crate) struct ArcTable {
    rows: [[bool; MAX_LOCALS]; MAX_LOCALS],
}

impl ArcTable {
    pub(crate) fn of(arcs: &[LocalArc]) -> ArcTable
        requires { All IsInTable arcs.now }
        ensures { IsTableOf result.rows arcs.now }
    {
        let mut rows = no_marks();
        for arc in arcs {
            mark(&mut rows, arc.from, arc.to);
        }
        ArcTable { rows }
    }

    pub(crate) fn has(&self, p: u8, q: u8) -> bool
        ensures { result ≡ is_marked self.now.rows p q }
    {
        match self.rows.get(p as usize) {
            Some(row) => mark_at(row, q as usize),
            None => false,
        }
    }
}

fn no_marks() -> [[bool; MAX_LOCALS]; MAX_LOCALS]
    ensures { (p q : ℕ) → is_marked result p q ≡ false }
{
    [[false; MAX_LOCALS]; MAX_LOCALS]
}

fn mark_at(row: &[bool], q: usize) -> bool
    ensures { result ≡ slice_index_or row.now q false }
{
    match row.get(q) {
        Some(mark) => *mark,
        None => false,
    }
}

fn mark(rows: &mut [[bool; MAX_LOCALS]; MAX_LOCALS], p: u8, q: u8)
    requires p_in { p < MAX_LOCALS }
    requires q_in { q < MAX_LOCALS }
    ensures here { is_marked rows.new p q ≡ true }
    ensures elsewhere { (x y : ℕ) → ((p ≡ x) × (q ≡ y) → ⊥) → is_marked rows.new x y ≡ is_marked rows.old x y }
{
    rows[p as usize] = with_mark(rows[p as usize], q);
}

fn with_mark(mut row: [bool; MAX_LOCALS], q: u8) -> [bool; MAX_LOCALS]
    requires { q < MAX_LOCALS }
    ensures here { slice_index_or result q false ≡ true }
    ensures elsewhere { (y : ℕ) → (q ≡ y → ⊥) → slice_index_or result y false ≡ slice_index_or row y false }
{
    row[q as usize] = true;
    row
}
