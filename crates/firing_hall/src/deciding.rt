//! What was read decides a wish; then it is fired, or its place is noted.
ghost use Rattle.std.specs.Prelude.{◌≡◌, ℕ, ◌<◌, [], length};
ghost use Rattle.conjunctive_compose.specs.Firing.{WishFits};
ghost use Rattle.firing_words.specs.Lists.{Has};
ghost use Rattle.firing_words.specs.Notes.{made_of};
ghost use Rattle.firing_words.specs.Stars.{HasStar};
ghost use Rattle.firing_words.specs.Views.{HoldsPlan, IsOne};
ghost use Rattle.firing_words.specs.declared.view.Track.{Track};
ghost use Rattle.firing_hall.specs.inside.Locks.{KnowsHeld};
ghost use Rattle.firing_hall.specs.Tries.{tries_of};

use crate::Reply;
use crate::firing::Hall;
use conjunctive_compose::{StepAnswer, Wish};
use firing_words::Hand;

impl Hall {
    ghost use Rattle.firing_words.specs.Hands.{IsOf, kept, view};
    ghost use Rattle.firing_words.specs.Of.{system_of};
    ghost use Rattle.firing_hall.specs.inside.Replies.{IsReplied};
    ghost use Rattle.firing_hall.specs.Halls.{NamesProcess};

    /// Stores all that is owed.
    fn store_all(&self, hand: &mut Hand)
        requires of { IsOf self.now.words hand.old }
        ensures of { IsOf self.now.words hand.new }
        ensures done { (view hand.new).owed ≡ [] }
        ensures rest { ((view hand.new).tracks ≡ (view hand.old).tracks) × ((view hand.new).held ≡ (view hand.old).held) × ((view hand.new).known ≡ (view hand.old).known) }
    {
        while self.words.owes(hand) {
            self.words.store(hand);
        }
    }

    /// Decides the wish by what was read; then fires it and stores, or notes the place.
    pub(crate) fn reply(&self, hand: &mut Hand, wish: Wish) -> Reply
        requires of { IsOf self.now.words hand.old }
        requires mine { IsOne (view hand.old) }
        requires fits { WishFits (system_of self.now.words) wish }
        requires plan { HoldsPlan (system_of self.now.words) (view hand.old) wish.process }
        requires done { (view hand.old).owed ≡ [] }
        requires known { KnowsHeld (system_of self.now.words) (view hand.old) }
        requires star { HasStar (system_of self.now.words) wish.process (kept hand.old) }
        requires room { (t : Track) → Has t (view hand.old).tracks → length (made_of t.items) < self.now.words.setting.room }
        ensures of { IsOf self.now.words hand.new }
        ensures held { (view hand.new).held ≡ (view hand.old).held }
        ensures known { KnowsHeld (system_of self.now.words) (view hand.new) }
        ensures done { (view hand.new).owed ≡ [] }
        ensures replied { (caller : ℕ) → IsReplied (system_of self.now.words) caller wish (view hand.old) (view hand.new) result }
        ensures tries { tries_of (view hand.new) ≡ tries_of (view hand.old) }
        ensures named { NamesProcess (system_of self.now.words) result }
    {
        match self.words.decide(hand, wish) {
            StepAnswer::Moved => {
                let number = self.words.commit(hand, wish);
                self.store_all(hand);
                Reply::Fired { number }
            }
            StepAnswer::Away { local } => {
                let at = self.words.place(hand, wish.process);
                Reply::Away { local, at }
            }
            StepAnswer::Blocked { neighbour } => {
                let at = self.words.place(hand, wish.process);
                Reply::Blocked { neighbour, at }
            }
        }
    }
}
