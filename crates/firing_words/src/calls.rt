//! The steps of a hand. Each is one atomic operation on one word, and none takes memory.
ghost use Rattle.std.specs.Prelude.{All, ◌≡◌, ◌≢◌, ℕ, ◌+◌, ◌<◌, ◌≤◌, vec_capacity, [], ◌∷◌, List, length, IfErr, IfOk, IsTrue, ◌↔◌};
ghost use Rattle.conjunctive_compose.specs.Firing.{WishFits};
ghost use Rattle.conjunctive_compose.specs.System.{edge_count, process_count};
ghost use Rattle.firing_words.specs.Cells.{IsCell, lock_count};
ghost use Rattle.firing_words.specs.Firings.{AreNext};
ghost use Rattle.firing_words.specs.Hands.{remembered};
ghost use Rattle.firing_words.specs.History.{Firing, IsPossible};
ghost use Rattle.firing_words.specs.Judged.{IsAnswered, IsMovable, NamesNeighbour};
ghost use Rattle.firing_words.specs.inside.Judging.{IsJudged};
ghost use Rattle.firing_words.specs.Lists.{Has};
ghost use Rattle.firing_words.specs.Notes.{made_of};
ghost use Rattle.firing_words.specs.Stars.{HasStar};
ghost use Rattle.firing_words.specs.Views.{HoldsPlan, IsGuarded, IsOne, IsPartOf, IsQuiet, joined, committed, holding, knowing, looked, placed, opened_from, stored, tried, unlocked};
ghost use Rattle.firing_words.specs.declared.cell.Cell.TheVariants.{Process, Edge};
ghost use Rattle.firing_words.specs.declared.cell.Reading.{Reading};
ghost use Rattle.firing_words.specs.declared.view.Track.{Track};

use crate::hand::{Hand, Space};
use crate::spaces::{make_spaces, widest};
use crate::words::{Token, Words};
use crate::{Cell, HALF_WORD, MAX_CALLERS, MAX_ENTRIES, MAX_ROOM, Reading};
use conjunctive_compose::{StepAnswer, System, Wish};
use std::alloc::Global;

// One reading more; where there is no room for it, what was read before is dropped.
fn remember(known: &mut Vec<Reading>, most: usize, reading: Reading)
    requires room { (0 < most) × (most ≤ vec_capacity known.old) × (length known.old.items ≤ most) }
    ensures items { known.new.items ≡ remembered most known.old.items reading }
    ensures capacity { vec_capacity known.new ≡ vec_capacity known.old }
    ensures few { length known.new.items ≤ most }
{
    if known.len() == most {
        known.clear();
    }
    known.push_reserved(reading);
}

impl Words {
    ghost use Rattle.firing_words.specs.Hands.{AreHands, IsFreshHand, IsOf, IsSameHand, kept, view};
    ghost use Rattle.firing_words.specs.inside.Dealing.{IsSpaceFor, AreDealt};
    ghost use Rattle.firing_words.specs.Of.{IsSeatOf, seat_view, system_of};
    ghost use Rattle.firing_words.specs.Cells.{reading};

    /// Takes a lock that nobody holds, or says which other caller holds it: a compare and exchange. A lost try is noted.
    pub fn lock(&self, hand: &mut Hand, lock: u32) -> Result<(), u32>
        requires of { IsOf self.now hand.old }
        requires within { lock < lock_count (system_of self.now) }
        requires one { IsOne (view hand.old) }
        requires free { ¬ Has lock (view hand.old).held }
        ensures of { IsOf self.now hand.new }
        ensures won { IfOk result (λ _. view hand.new ≡ holding (view hand.old) lock) }
        ensures lost { IfErr result (λ holder. (holder ≢ hand.old.caller) × (holder < self.now.setting.callers) × (view hand.new ≡ tried (view hand.old) lock holder)) }
        ensures same { IsSameHand hand.old hand.new × (kept hand.new ≡ kept hand.old) }
    {
        let caller = hand.caller;
        self.lock_seat(&mut hand.seat, caller, lock)
    }

    /// Gives up a lock, once nothing is owed: a store of 0. What was read under locks is known no more.
    pub fn unlock(&self, hand: &mut Hand, lock: u32)
        requires of { IsOf self.now hand.old }
        requires within { lock < lock_count (system_of self.now) }
        requires held { Has lock (view hand.old).held }
        requires done { (view hand.old).owed ≡ [] }
        ensures of { IsOf self.now hand.new }
        ensures unlocked { view hand.new ≡ unlocked (system_of self.now) (view hand.old) lock }
        ensures same { IsSameHand hand.old hand.new × (kept hand.new ≡ []) }
    {
        hand.space.known.clear();
        self.unlock_seat(&mut hand.seat, lock)
    }

    /// How many entries there are, under the locks of a process: a load of the counter. What is known is noted to hold there.
    pub fn place(&self, hand: &mut Hand, process: u32) -> u64
        requires of { IsOf self.now hand.old }
        requires plan { HoldsPlan (system_of self.now) (view hand.old) process }
        requires done { (view hand.old).owed ≡ [] }
        ensures of { IsOf self.now hand.new }
        ensures placed { view hand.new ≡ placed (view hand.old) result process }
        ensures same { IsSameHand hand.old hand.new × (kept hand.new ≡ kept hand.old) }
    {
        self.place_seat(&mut hand.seat, process)
    }

    /// Stores the next word that is owed: first that of the process, then those of its edges by the number of the neighbour.
    pub fn store(&self, hand: &mut Hand)
        requires of { IsOf self.now hand.old }
        requires owed { (view hand.old).owed ≢ [] }
        ensures of { IsOf self.now hand.new }
        ensures stored { view hand.new ≡ stored (view hand.old) }
        ensures same { IsSameHand hand.old hand.new × (kept hand.new ≡ kept hand.old) }
    {
        let next = hand.space.owed[hand.stored];
        hand.stored += 1;
        self.store_seat(&mut hand.seat, next)
    }

    /// Whether something is still to be stored.
    pub fn owes(&self, hand: &Hand) -> bool
        requires of { IsOf self.now hand.now }
        ensures { IsTrue result ↔ (view hand.now).owed ≢ [] }
    {
        if hand.stored < hand.space.owed.len() {
            return true;
        }
        false
    }

    // Reads a cell under its locks; where there is no room for it, what was read before is dropped.
    fn read(&self, hand: &mut Hand, cell: Cell) -> Reading
        requires of { IsOf self.now hand.old }
        requires within { IsCell (system_of self.now) cell }
        requires guarded { IsGuarded (system_of self.now) (view hand.old) cell }
        requires done { (view hand.old).owed ≡ [] }
        ensures of { IsOf self.now hand.new }
        ensures cell { (result.cell ≡ cell) × (result.moves ≤ MAX_ENTRIES) × (result.content < HALF_WORD) }
        ensures known { view hand.new ≡ knowing (view hand.old) result }
        ensures possible { IsPossible (system_of self.now) (view hand.new).known }
        ensures kept { kept hand.new ≡ remembered hand.old.most (kept hand.old) result }
        ensures same { IsSameHand hand.old hand.new }
    {
        let reading = self.read_seat(&mut hand.seat, cell);
        remember(&mut hand.space.known, hand.most, reading);
        reading
    }

    /// Reads the word of a process, all of whose locks are held: a load. How often it fired, and its local state.
    pub fn read_process(&self, hand: &mut Hand, process: u32) -> (u64, u8)
        requires of { IsOf self.now hand.old }
        requires within { process < process_count (system_of self.now) }
        requires plan { HoldsPlan (system_of self.now) (view hand.old) process }
        requires done { (view hand.old).owed ≡ [] }
        ensures of { IsOf self.now hand.new }
        ensures known { view hand.new ≡ knowing (view hand.old) (reading (Process process) result.0 result.1) }
        ensures kept { kept hand.new ≡ remembered hand.old.most (kept hand.old) (reading (Process process) result.0 result.1) }
        ensures same { IsSameHand hand.old hand.new }
    {
        let _system = self.system();
        let shown = self.read(hand, Cell::Process(process));
        (shown.moves, shown.content as u8)
    }

    /// Reads the word of an edge, whose lock is held: a load. How often its two processes fired, and its pair state.
    pub fn read_pair(&self, hand: &mut Hand, edge: u32) -> (u64, u64)
        requires of { IsOf self.now hand.old }
        requires within { edge < edge_count (system_of self.now) }
        requires held { Has edge (view hand.old).held }
        requires done { (view hand.old).owed ≡ [] }
        ensures of { IsOf self.now hand.new }
        ensures known { view hand.new ≡ knowing (view hand.old) (reading (Edge edge) result.0 result.1) }
        ensures kept { kept hand.new ≡ remembered hand.old.most (kept hand.old) (reading (Edge edge) result.0 result.1) }
        ensures same { IsSameHand hand.old hand.new }
    {
        let shown = self.read(hand, Cell::Edge(edge));
        (shown.moves, shown.content)
    }

    /// Reads the word of a process without a lock: a load. How often it fired, and its local state then; it is noted.
    pub fn look(&self, hand: &mut Hand, process: u32) -> (u64, u8)
        requires of { IsOf self.now hand.old }
        requires within { process < process_count (system_of self.now) }
        requires one { IsOne (view hand.old) }
        requires done { (view hand.old).owed ≡ [] }
        ensures of { IsOf self.now hand.new }
        ensures looked { view hand.new ≡ looked (view hand.old) (reading (Process process) result.0 result.1) }
        ensures part { (log : List Firing) × IsPartOf (system_of self.now) self.now.setting.callers (view hand.new) log }
        ensures same { IsSameHand hand.old hand.new × (kept hand.new ≡ kept hand.old) }
    {
        let _system = self.system();
        let shown = self.look_seat(&mut hand.seat, Cell::Process(process));
        (shown.moves, shown.content as u8)
    }

    /// Reads the word of an edge without a lock: a load. How often its two processes fired, and its pair state then; it is
    /// noted.
    pub fn look_pair(&self, hand: &mut Hand, edge: u32) -> (u64, u64)
        requires of { IsOf self.now hand.old }
        requires within { edge < edge_count (system_of self.now) }
        requires one { IsOne (view hand.old) }
        requires done { (view hand.old).owed ≡ [] }
        ensures of { IsOf self.now hand.new }
        ensures looked { view hand.new ≡ looked (view hand.old) (reading (Edge edge) result.0 result.1) }
        ensures part { (log : List Firing) × IsPartOf (system_of self.now) self.now.setting.callers (view hand.new) log }
        ensures same { IsSameHand hand.old hand.new × (kept hand.new ≡ kept hand.old) }
    {
        let shown = self.look_seat(&mut hand.seat, Cell::Edge(edge));
        (shown.moves, shown.content)
    }

    // What is known decides the wish. What its firing would store is made ready, and nothing is owed.
    fn judge(&self, hand: &mut Hand, wish: Wish) -> StepAnswer
        requires of { IsOf self.now hand.old }
        requires fits { WishFits (system_of self.now) wish }
        requires knows { HasStar (system_of self.now) wish.process (kept hand.old) }
        requires done { (view hand.old).owed ≡ [] }
        ensures of { IsOf self.now hand.new }
        ensures judged { IsJudged (system_of self.now) (view hand.old).known wish hand.new.space.owed.items result }
        ensures named { NamesNeighbour (system_of self.now) result }
        ensures same { IsSameHand hand.old hand.new × (kept hand.new ≡ kept hand.old) × (view hand.new ≡ view hand.old) }
    {
        let list = self.system().network().neighbours(wish.process);
        self.gather(
            &hand.seat,
            &hand.space.known,
            wish.process,
            list,
            &mut hand.space.star,
        );
        let answer = self.judge_star(
            &hand.seat,
            wish,
            list,
            &hand.space.star,
            &mut hand.space.owed,
        );
        hand.stored = hand.space.owed.len();
        answer
    }

    /// What the wish is answered by what is known. It takes no step.
    pub fn decide(&self, hand: &mut Hand, wish: Wish) -> StepAnswer
        requires of { IsOf self.now hand.old }
        requires fits { WishFits (system_of self.now) wish }
        requires knows { HasStar (system_of self.now) wish.process (kept hand.old) }
        requires done { (view hand.old).owed ≡ [] }
        ensures of { IsOf self.now hand.new }
        ensures answered { IsAnswered (system_of self.now) (view hand.old).known wish result }
        ensures named { NamesNeighbour (system_of self.now) result }
        ensures same { IsSameHand hand.old hand.new × (kept hand.new ≡ kept hand.old) × (view hand.new ≡ view hand.old) }
    {
        let _system = self.system();
        self.judge(hand, wish)
    }

    /// Fires a wish that moves by what is known: a fetch and add on the counter, which gives the entry its number. The words of
    /// the process and of its edges are owed from now on.
    pub fn commit(&self, hand: &mut Hand, wish: Wish) -> u64
        requires of { IsOf self.now hand.old }
        requires one { IsOne (view hand.old) }
        requires fits { WishFits (system_of self.now) wish }
        requires plan { HoldsPlan (system_of self.now) (view hand.old) wish.process }
        requires done { (view hand.old).owed ≡ [] }
        requires knows { HasStar (system_of self.now) wish.process (kept hand.old) }
        requires moves { IsMovable (system_of self.now) (view hand.old).known wish }
        requires room { (t : Track) → Has t (view hand.old).tracks → length (made_of t.items) < self.now.setting.room }
        ensures of { IsOf self.now hand.new }
        ensures committed { (stores : List Reading) × AreNext (system_of self.now) (view hand.old).known wish stores × (view hand.new ≡ committed (view hand.old) result wish stores) }
        ensures same { IsSameHand hand.old hand.new × (kept hand.new ≡ []) }
    {
        let _system = self.system();
        match self.judge(hand, wish) {
            StepAnswer::Moved => {
                hand.space.known.clear();
                hand.stored = 0;
                self.commit_seat(&mut hand.seat, wish, &hand.space.owed)
            }
            StepAnswer::Away { local: _ } => unreachable!(),
            StepAnswer::Blocked { neighbour: _ } => unreachable!(),
        }
    }

    /// How many entries there are: a load of the counter. What the hand's callers did is their part of the one run.
    pub fn tell(&self, hand: &mut Hand) -> u64
        requires of { IsOf self.now hand.old }
        ensures of { IsOf self.now hand.new }
        ensures same { IsSameHand hand.old hand.new × (kept hand.new ≡ kept hand.old) × (view hand.new ≡ view hand.old) }
        ensures part { (log : List Firing) × (result ≡ length log) × IsPartOf (system_of self.now) self.now.setting.callers (view hand.old) log }
    {
        self.tell_seat(&mut hand.seat)
    }

    /// Takes in another hand's callers and what they did; then a load of the counter.
    pub fn join(&self, hand: &mut Hand, other: Hand)
        requires of { IsOf self.now hand.old × IsOf self.now other }
        requires quiet { IsQuiet (view hand.old) × IsQuiet (view other) }
        ensures of { IsOf self.now hand.new }
        ensures joined { view hand.new ≡ joined (view hand.old) (view other) }
        ensures part { (log : List Firing) × IsPartOf (system_of self.now) self.now.setting.callers (view hand.new) log }
        ensures same { IsSameHand hand.old hand.new × (kept hand.new ≡ kept hand.old) }
    {
        let _system = self.system();
        let Hand {
            seat,
            caller: _,
            most: _,
            stored: _,
            space: _,
        } = other;
        self.join_seats(&mut hand.seat, seat)
    }

    /// Ends the table. What the hand's callers did is their part of one run.
    pub fn close(self, hand: Hand) -> System
        requires { IsOf self hand }
        ensures system { result ≡ system_of self }
        ensures part { (log : List Firing) × IsPartOf (system_of self) self.setting.callers (view hand) log }
    {
        let Hand {
            seat,
            caller: _,
            most: _,
            stored: _,
            space: _,
        } = hand;
        self.close_seat(seat)
    }

    /// The words of a system at its start, and a hand for each caller: hand number c has caller number c. It fails for want of
    /// memory alone, and gives the system back; no other call takes memory. Linear in processes, edges and callers.
    pub fn open(
        alloc: Global,
        system: System,
        callers: u32,
        room: u32,
    ) -> Result<(Words, Vec<Hand>), System>
        requires callers { (0 < callers) × (callers ≤ MAX_CALLERS) }
        requires room { room ≤ MAX_ROOM }
        ensures err { IfErr result (λ s. s ≡ system) }
        ensures words { IfOk result (λ r. (system_of r.0 ≡ system) × (r.0.setting.callers ≡ callers) × (r.0.setting.room ≡ room)) }
        ensures hands { IfOk result (λ r. AreHands r.0 callers r.1.items) }
    {
        let most = widest(&system);
        let Ok(spaces) = make_spaces(alloc, &system, callers, most) else {
            return Err(system);
        };
        let Ok(mut hands) = Vec::with_capacity(alloc, callers as usize) else {
            return Err(system);
        };
        match Words::open_seats(alloc, system, callers, room) {
            Ok((words, seats)) => {
                words.hand_out(seats, spaces, most + 1, &mut hands);
                Ok((words, hands))
            }
            Err(system) => Err(system),
        }
    }

    // A seat and a space make a hand.
    fn make_hand(&self, seat: Token, space: Space, most: usize, caller: u32) -> Hand
        requires seat { IsSeatOf self.now seat × (seat_view seat ≡ opened_from caller 1) }
        requires space { IsSpaceFor (system_of self.now) most space }
        ensures { IsFreshHand self.now caller result }
    {
        let _system = self.system();
        Hand {
            seat,
            caller,
            most,
            stored: 0,
            space,
        }
    }

    // A hand for each caller, from its seat and a space.
    fn hand_out(
        &self,
        mut seats: Vec<Token>,
        mut spaces: Vec<Space>,
        most: usize,
        hands: &mut Vec<Hand>,
    )
        requires seats { AreDealt self.now self.now.setting.callers seats.items }
        requires spaces { All (IsSpaceFor (system_of self.now) most) spaces.items }
        requires as_many { length spaces.items ≡ self.now.setting.callers }
        requires empty { hands.old.items ≡ [] }
        requires reserved { self.now.setting.callers ≤ vec_capacity hands.old }
        ensures { AreHands self.now self.now.setting.callers hands.new.items }
    {
        for caller in 0..self.callers() {
            let seat = seats.remove(0);
            let Some(space) = spaces.pop() else {
                unreachable!();
            };
            hands.push_reserved(self.make_hand(seat, space, most, caller));
        }
    }
}
