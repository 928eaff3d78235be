ghost use Rattle.std.specs.Prelude.{◌≡◌, ◌<◌, [], length, IfNone, IfSome};
ghost use Rattle.skeleton_extract.specs.Permission.{picked};
ghost use Rattle.interconnection.specs.Graph.{IsBeside};
ghost use Rattle.conjunctive_compose.specs.Firing.{WishFits};
ghost use Rattle.conjunctive_compose.specs.NextPair.{IsLeft, IsNextPair, NeverPermits, permitted_at};
ghost use Rattle.conjunctive_compose.specs.System.{IsSystem, edge_count, structure_at};

use crate::{System, Wish};
use interconnection::Beside;
use pair_structure::{PairStructure, local_of, opposite, with_local};

impl System {
    /// The state of an edge's pair after a firing of the wish, from its state before; None where the neighbour on the edge
    /// does not permit the arc. It asks for no whole state, so a caller who knows this pair alone may decide for it.
    /// Two binary searches among the commands of the arc, and one among the states.
    pub fn next_pair(&self, wish: Wish, b: &Beside, state: u64) -> Option<u64>
        requires fits { WishFits self.now wish }
        requires beside { IsBeside self.now.network.edges wish.process b.now }
        requires left { IsLeft self.now wish b.now state }
        ensures none { IfNone result (NeverPermits self.now wish b.now state) }
        ensures some { IfSome result (IsNextPair self.now wish b.now state) }
    {
        let Some(set) = self.next_value(wish, b, state) else {
            return None;
        };
        let structure = self.structure_on(b.edge);
        let to = self.arc(wish.process, wish.arc).to;
        let after = with_local(b.side, structure.states()[state as usize], to);
        match structure.state_at(after.0, after.1, set) {
            Some(next) => Some(next),
            None => unreachable!(),
        }
    }

    /// The value that the firing sets on the edge; None where the neighbour does not permit the arc.
    fn next_value(&self, wish: Wish, b: &Beside, state: u64) -> Option<u64>
        requires fits { WishFits self.now wish }
        requires beside { IsBeside self.now.network.edges wish.process b.now }
        requires left { IsLeft self.now wish b.now state }
        ensures none { IfNone result (permitted_at self.now wish b.now state ≡ []) }
        ensures some { IfSome result (λ set. (0 < length (permitted_at self.now wish b.now state)) × (set ≡ (picked (permitted_at self.now wish b.now state) wish.pick).set)) }
        ensures system { IsSystem self.now }
    {
        let structure = self.structure_on(b.edge);
        let x = structure.ordinal(state);
        let label = structure.states()[state as usize];
        let other = local_of(opposite(b.side), label);
        self.skeleton(b.edge)
            .choose(b.side, wish.arc, other, x, wish.pick)
    }

    fn structure_on(&self, edge: u32) -> &PairStructure
        requires { edge < edge_count self.now }
        ensures structure { result.now ≡ structure_at self.now edge }
        ensures system { IsSystem self.now }
    {
        self.structure(self.network().edges()[edge as usize].kind)
    }
}
