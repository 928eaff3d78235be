ghost use Rattle.std.specs.Prelude.{◌≡◌, ◌<◌, ◌↔◌, [], length, IfNone, IfSome, IsTrue};
ghost use Rattle.pair_structure.specs.declared.side.Side.{Side};
ghost use Rattle.skeleton_extract.specs.Permission.{picked};
ghost use Rattle.interconnection.specs.Graph.{AreNeighbours, IsBeside};
ghost use Rattle.conjunctive_compose.specs.Firing.{AllPermit, Fits, IsAnswer, IsFirstBlocker, Permits, WishFits, arc_of, permitted, with_values};
ghost use Rattle.conjunctive_compose.specs.System.{IsOn, IsSystem, Joins, edge_count};
ghost use Rattle.conjunctive_compose.specs.Whole.{HasSizes, IsProper, local_at};

use crate::{StepAnswer, System, Whole, Wish};
use interconnection::Beside;
use pair_structure::Side;

impl System {
    /// Whether the edge's other process permits the arc to this one: in its local state and at the edge's value some command of the arc
    /// stands. Logarithmic in the commands of the arc.
    pub fn permits(&self, w: &Whole, process: u32, arc: u32, edge: u32) -> bool
        requires fits { Fits self.now process arc }
        requires proper { IsProper self.now w.now }
        requires within { edge < edge_count self.now }
        requires joins { Joins self.now edge process }
        ensures { (side : Side) → IsOn self.now process side edge → IsTrue result ↔ Permits self.now w.now side arc edge }
    {
        let wish = Wish {
            process,
            arc,
            pick: 0,
        };
        let b = self.beside(process, edge);
        self.is_permitted(w, wish, &b)
    }

    /// How the edge looks to one of its processes.
    fn beside(&self, process: u32, edge: u32) -> Beside
        requires within { edge < edge_count self.now }
        requires joins { Joins self.now edge process }
        ensures beside { IsBeside self.now.network.edges process result }
        ensures edge { result.edge ≡ edge }
        ensures system { IsSystem self.now }
    {
        let ends = self.network().edges()[edge as usize];
        if ends.a == process {
            return Beside {
                process: ends.b,
                edge,
                side: Side::A,
            };
        }
        Beside {
            process: ends.a,
            edge,
            side: Side::B,
        }
    }

    pub(crate) fn is_permitted(&self, w: &Whole, wish: Wish, b: &Beside) -> bool
        requires fits { WishFits self.now wish }
        requires sizes { HasSizes self.now w.now }
        requires beside { IsBeside self.now.network.edges wish.process b.now }
        ensures { IsTrue result ↔ Permits self.now w.now b.now.side wish.arc b.now.edge }
    {
        self.value(w, wish, b).is_some()
    }

    /// The value that the firing sets on an edge; None where its other process does not permit the arc.
    fn value(&self, w: &Whole, wish: Wish, b: &Beside) -> Option<u64>
        requires fits { WishFits self.now wish }
        requires sizes { HasSizes self.now w.now }
        requires beside { IsBeside self.now.network.edges wish.process b.now }
        ensures none { IfNone result (permitted self.now w.now b.now.side wish.arc b.now.edge ≡ []) }
        ensures some { IfSome result (λ v. (0 < length (permitted self.now w.now b.now.side wish.arc b.now.edge)) × (v ≡ (picked (permitted self.now w.now b.now.side wish.arc b.now.edge) wish.pick).set)) }
    {
        let skeleton = self.skeleton(b.edge);
        let other = w.local(b.process);
        let x = w.value(b.edge);
        skeleton.choose(b.side, wish.arc, other, x, wish.pick)
    }

    /// The first neighbour that does not permit the arc, if there is one.
    fn first_blocker(&self, w: &Whole, wish: Wish, neighbours: &[Beside]) -> Option<u32>
        requires fits { WishFits self.now wish }
        requires sizes { HasSizes self.now w.now }
        requires neighbours { AreNeighbours self.now.network.edges wish.process neighbours.now }
        ensures none { IfNone result (AllPermit self.now w.now wish.process wish.arc) }
        ensures some { IfSome result (IsFirstBlocker self.now w.now wish) }
    {
        for b in neighbours {
            if !self.is_permitted(w, wish, b) {
                return Some(b.process);
            }
        }
        None
    }

    fn set_values(&self, w: &mut Whole, wish: Wish, neighbours: &[Beside])
        requires fits { WishFits self.now wish }
        requires sizes { HasSizes self.now w.old }
        requires neighbours { AreNeighbours self.now.network.edges wish.process neighbours.now }
        requires permit { AllPermit self.now w.old wish.process wish.arc }
        ensures { w.new ≡ with_values self.now w.old wish }
    {
        let _network = self.network();
        for b in neighbours {
            match self.value(w, wish, b) {
                Some(value) => w.set_value(b.edge, value),
                None => unreachable!(),
            }
        }
    }

    /// Fires the wish, where it moves: the process takes the arc, and each of its edges the value of its picked command, all together.
    /// Else the whole state stays. For each neighbour two binary searches among the commands of the arc, twice where it moves.
    pub fn step(&self, w: &mut Whole, wish: Wish) -> StepAnswer
        requires fits { WishFits self.now wish }
        requires proper { IsProper self.now w.old }
        ensures answer { IsAnswer self.now w.old wish result w.new }
        ensures proper { IsProper self.now w.new }
    {
        let arc = self.arc(wish.process, wish.arc);
        let local = w.local(wish.process);
        if arc.from != local {
            return StepAnswer::Away { local };
        }
        self.fire(w, wish, arc.to)
    }

    fn fire(&self, w: &mut Whole, wish: Wish, to: u8) -> StepAnswer
        requires fits { WishFits self.now wish }
        requires proper { IsProper self.now w.old }
        requires leaves { (arc_of self.now wish.process wish.arc).from ≡ local_at w.old wish.process }
        requires to { to ≡ (arc_of self.now wish.process wish.arc).to }
        ensures answer { IsAnswer self.now w.old wish result w.new }
        ensures proper { IsProper self.now w.new }
    {
        let neighbours = self.network().neighbours(wish.process);
        match self.first_blocker(w, wish, neighbours) {
            Some(neighbour) => StepAnswer::Blocked { neighbour },
            None => {
                self.set_values(w, wish, neighbours);
                w.set_local(wish.process, to);
                StepAnswer::Moved
            }
        }
    }
}
