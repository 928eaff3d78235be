ghost use Rattle.std.specs.Prelude.{◌<◌, ◌≤◌, ◌↔◌, ◌+◌, ◌⊎◌, length, slice_index_or, Contains, IfOk, IsTrue, MatchOption, OnOk};
ghost use Rattle.pair_structure.specs.declared.side.Side.{Side};
ghost use Rattle.interconnection.specs.declared.parts.Beside.{Beside};
ghost use Rattle.interconnection.specs.Graph.{AreNeighbours, IsBeside};
ghost use Rattle.conjunctive_compose.specs.Firing.{Fits, WishFits};
ghost use Rattle.conjunctive_compose.specs.Peel.{CanGoPast, HasPeelOrder, IsClear, IsLeaving, IsPeelOrder};
ghost use Rattle.conjunctive_compose.specs.inside.Peeling.{ArePast, IsGrown, IsMarked, IsPast, IsPeeling, NoneCanGo, PlaceSame, WereTried};
ghost use Rattle.conjunctive_compose.specs.System.{IsSystem, process_count};
ghost use Rattle.conjunctive_compose.specs.Whole.{IsProper};

use crate::peeling::Peeling;
use crate::{System, Whole, Wish};
use interconnection::Beside;
use pair_structure::Memory;
use std::alloc::{AllocError, Global};

impl System {
    /// A peel order of the whole state (this project); None exactly where there is none. Each process is tried once,
    /// and again whenever a neighbour of it is placed, and each neighbour is passed once an arc: linear in processes
    /// and edges, times arcs of a role.
    pub fn peel(&self, alloc: Global, w: &Whole) -> Result<Option<Vec<u32>>, Memory>
        requires { IsProper self.now w.now }
        ensures { IfOk result (λ order. MatchOption order (HasPeelOrder self.now w.now → ⊥) (λ order. IsPeelOrder self.now w.now order.items)) }
    {
        let mut peeling = Peeling::new(alloc, self.network().processes().len())?;
        self.place_free(w, &mut peeling)?;
        self.place_rest(w, &mut peeling)?;
        if peeling.has_all() {
            return Ok(Some(peeling.into_order()));
        }
        Ok(None)
    }

    /// Places each process that can go past those before it.
    fn place_free(&self, w: &Whole, peeling: &mut Peeling) -> Result<(), AllocError>
        requires proper { IsProper self.now w.now }
        requires peeling { IsPeeling self.now w.now peeling.old }
        ensures peeling { OnOk result (IsPeeling self.now w.now peeling.new) }
        ensures none { OnOk result (NoneCanGo self.now w.now peeling.new 0) }
    {
        let count = self.network().processes().len();
        for k in 0..count {
            self.try_to_place(w, k as u32, peeling)?;
        }
        Ok(())
    }

    /// Goes over those placed, also the new ones, and places each neighbour that can go now.
    fn place_rest(&self, w: &Whole, peeling: &mut Peeling) -> Result<(), AllocError>
        requires proper { IsProper self.now w.now }
        requires peeling { IsPeeling self.now w.now peeling.old }
        requires none { NoneCanGo self.now w.now peeling.old 0 }
        ensures peeling { OnOk result (IsPeeling self.now w.now peeling.new) }
        ensures none { OnOk result (NoneCanGo self.now w.now peeling.new (length peeling.new.order)) }
    {
        let mut next = 0;
        while next < peeling.len() {
            self.place_beside(w, next, peeling)?;
            next += 1;
        }
        Ok(())
    }

    /// Places each neighbour of the process that was placed at this number that can go now.
    fn place_beside(&self, w: &Whole, next: usize, peeling: &mut Peeling) -> Result<(), AllocError>
        requires proper { IsProper self.now w.now }
        requires peeling { IsPeeling self.now w.now peeling.old }
        requires within { next < length peeling.old.order }
        requires none { NoneCanGo self.now w.now peeling.old next }
        ensures peeling { OnOk result (IsPeeling self.now w.now peeling.new) }
        ensures grown { OnOk result (IsGrown peeling.old peeling.new) }
        ensures none { OnOk result (NoneCanGo self.now w.now peeling.new (next + 1)) }
    {
        let process = peeling.at(next);
        let neighbours = self.network().neighbours(process);
        self.try_each(w, process, neighbours, peeling)?;
        Ok(())
    }

    fn try_each(
        &self,
        w: &Whole,
        process: u32,
        neighbours: &[Beside],
        peeling: &mut Peeling,
    ) -> Result<(), AllocError>
        requires proper { IsProper self.now w.now }
        requires peeling { IsPeeling self.now w.now peeling.old }
        requires neighbours { AreNeighbours self.now.network.edges process neighbours.now }
        ensures peeling { OnOk result (IsPeeling self.now w.now peeling.new) }
        ensures grown { OnOk result (IsGrown peeling.old peeling.new) }
        ensures tried { OnOk result (WereTried self.now w.now peeling.old peeling.new neighbours.now (length neighbours.now)) }
    {
        let _network = self.network();
        for b in neighbours {
            self.try_to_place(w, b.process, peeling)?;
        }
        Ok(())
    }

    /// Places the process, if it is not placed and can go past those placed.
    fn try_to_place(&self, w: &Whole, process: u32, peeling: &mut Peeling) -> Result<(), AllocError>
        requires proper { IsProper self.now w.now }
        requires peeling { IsPeeling self.now w.now peeling.old }
        requires within { process < process_count self.now }
        ensures peeling { OnOk result (IsPeeling self.now w.now peeling.new) }
        ensures grown { OnOk result (IsGrown peeling.old peeling.new) }
        ensures tried { OnOk result (IsMarked peeling.new.marks process ⊎ (CanGoPast self.now w.now (Contains peeling.old.order) process → ⊥)) }
    {
        if peeling.has(process) {
            return Ok(());
        }
        if self.can_go(w, process, peeling) {
            peeling.place(process)?;
        }
        Ok(())
    }

    /// Whether some arc from the process's local state is permitted by each neighbour that is not placed.
    fn can_go(&self, w: &Whole, process: u32, peeling: &mut Peeling) -> bool
        requires proper { IsProper self.now w.now }
        requires peeling { IsPeeling self.now w.now peeling.old }
        requires within { process < process_count self.now }
        ensures peeling { IsPeeling self.now w.now peeling.new }
        ensures same { PlaceSame peeling.old peeling.new }
        ensures can { IsTrue result ↔ CanGoPast self.now w.now (IsMarked peeling.old.marks) process }
    {
        let neighbours = self.network().neighbours(process);
        for arc in 0..self.role(process).arcs().len() {
            if self.can_take(w, process, arc as u32, neighbours, peeling) {
                return true;
            }
        }
        false
    }

    fn can_take(
        &self,
        w: &Whole,
        process: u32,
        arc: u32,
        neighbours: &[Beside],
        peeling: &mut Peeling,
    ) -> bool
        requires proper { IsProper self.now w.now }
        requires fits { Fits self.now process arc }
        requires peeling { IsPeeling self.now w.now peeling.old }
        requires neighbours { AreNeighbours self.now.network.edges process neighbours.now }
        ensures peeling { IsPeeling self.now w.now peeling.new }
        ensures same { PlaceSame peeling.old peeling.new }
        ensures can { IsTrue result ↔ IsLeaving self.now w.now process arc × IsClear self.now w.now (IsMarked peeling.old.marks) process arc }
    {
        if self.arc(process, arc).from != w.local(process) {
            return false;
        }
        let wish = Wish {
            process,
            arc,
            pick: 0,
        };
        self.is_clear(w, wish, neighbours, peeling)
    }

    fn is_clear(&self, w: &Whole, wish: Wish, neighbours: &[Beside], peeling: &mut Peeling) -> bool
        requires proper { IsProper self.now w.now }
        requires fits { WishFits self.now wish }
        requires peeling { IsPeeling self.now w.now peeling.old }
        requires neighbours { AreNeighbours self.now.network.edges wish.process neighbours.now }
        ensures peeling { IsPeeling self.now w.now peeling.new }
        ensures same { PlaceSame peeling.old peeling.new }
        ensures clear { IsTrue result ↔ IsClear self.now w.now (IsMarked peeling.old.marks) wish.process wish.arc }
    {
        let _network = self.network();
        let passed = self.count_passed(w, wish, neighbours, peeling);
        peeling.set_passed(wish.process, wish.arc, passed);
        passed == neighbours.len()
    }

    /// How many neighbours, from the first on, are placed or permit the arc. Those that are counted already are not
    /// looked at again.
    fn count_passed(&self, w: &Whole, wish: Wish, neighbours: &[Beside], peeling: &Peeling) -> usize
        requires proper { IsProper self.now w.now }
        requires fits { WishFits self.now wish }
        requires peeling { IsPeeling self.now w.now peeling.now }
        requires neighbours { AreNeighbours self.now.network.edges wish.process neighbours.now }
        ensures within { result ≤ length neighbours.now }
        ensures past { ArePast self.now w.now peeling.now.marks wish.arc neighbours.now result }
        ensures stops { (d : Beside) → result < length neighbours.now → IsPast self.now w.now peeling.now.marks wish.arc (slice_index_or neighbours.now result d) → ⊥ }
    {
        let _network = self.network();
        for n in peeling.passed(wish.process, wish.arc)..neighbours.len() {
            if !self.is_past(w, wish, &neighbours[n], peeling) {
                return n;
            }
        }
        neighbours.len()
    }

    /// Whether the neighbour is placed, or permits the arc.
    fn is_past(&self, w: &Whole, wish: Wish, b: &Beside, peeling: &Peeling) -> bool
        requires proper { IsProper self.now w.now }
        requires fits { WishFits self.now wish }
        requires peeling { IsPeeling self.now w.now peeling.now }
        requires beside { IsBeside self.now.network.edges wish.process b.now }
        ensures { IsTrue result ↔ IsPast self.now w.now peeling.now.marks wish.arc b.now }
    {
        let _network = self.network();
        if peeling.has(b.process) {
            return true;
        }
        self.is_permitted(w, wish, b)
    }
}
