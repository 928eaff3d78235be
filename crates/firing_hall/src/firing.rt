//! The hall, and one firing.
ghost use Rattle.std.specs.Prelude.{◌≡◌, ℕ, ◌<◌, length};
ghost use Rattle.conjunctive_compose.specs.Firing.{WishFits};
ghost use Rattle.firing_words.specs.Lists.{Has};
ghost use Rattle.firing_words.specs.Notes.{made_of};
ghost use Rattle.firing_words.specs.Views.{IsOne, IsQuiet};
ghost use Rattle.firing_words.specs.declared.view.Track.{Track};

use crate::{Gate, Reply};
use conjunctive_compose::{System, Wish};
use firing_words::{Hand, Words};

/// A system that many callers fire at once, from threads of their own. Each call takes `&self`, so threads share it by reference.
#[derive(Drop)]
pub struct Hall {
    pub(crate) words: Words,
    ghost some: { 0 < words.setting.callers },
}

impl Hall {
    ghost use Rattle.firing_words.specs.Hands.{IsOf, view};
    ghost use Rattle.firing_words.specs.Of.{system_of};
    ghost use Rattle.firing_hall.specs.Gates.{IsAnswered};
    ghost use Rattle.firing_hall.specs.inside.Replies.{IsReplied};
    ghost use Rattle.firing_hall.specs.Halls.{NamesProcess};
    ghost use Rattle.firing_hall.specs.inside.Locks.{HoldsOnly, IsBare, IsPlan};
    ghost use Rattle.firing_hall.specs.Tries.{HasTried, IsBusyAfter, tries_of};

    /// The system that is fired.
    pub fn system(&self) -> &System
        ensures { result.now ≡ system_of self.now.words }
    {
        self.words.system()
    }

    /// Answers a wish whose locks are all held, and gives them up. The gate is called before anything is read.
    fn answer<G: Gate>(&self, hand: &mut Hand, wish: Wish, plan: &[u32], gate: &mut G) -> Reply
        requires of { IsOf self.now.words hand.old }
        requires mine { IsOne (view hand.old) }
        requires fits { WishFits (system_of self.now.words) wish }
        requires plan { IsPlan (system_of self.now.words) wish.process plan.now }
        requires held { HoldsOnly (view hand.old) plan.now }
        requires bare { IsBare (view hand.old) }
        requires room { (t : Track) → Has t (view hand.old).tracks → length (made_of t.items) < self.now.words.setting.room }
        ensures of { IsOf self.now.words hand.new }
        ensures quiet { IsQuiet (view hand.new) }
        ensures replied { (caller : ℕ) → IsReplied (system_of self.now.words) caller wish (view hand.old) (view hand.new) result }
        ensures tries { tries_of (view hand.new) ≡ tries_of (view hand.old) }
        ensures named { NamesProcess (system_of self.now.words) result }
        ensures gate { G.opens gate.old gate.new }
    {
        gate.held();
        let list = self.words.system().network().neighbours(wish.process);
        self.read_star(hand, wish.process, list);
        let reply = self.reply(hand, wish);
        self.release(hand, wish.process, plan, plan.len());
        reply
    }

    /// Fires a wish under the locks of its plan, or says why not.
    pub(crate) fn fire_by<G: Gate>(
        &self,
        hand: &mut Hand,
        wish: Wish,
        tries: u32,
        gate: &mut G,
    ) -> Reply
        requires of { IsOf self.now.words hand.old }
        requires mine { IsOne (view hand.old) }
        requires quiet { IsQuiet (view hand.old) }
        requires fits { WishFits (system_of self.now.words) wish }
        requires room { (t : Track) → Has t (view hand.old).tracks → length (made_of t.items) < self.now.words.setting.room }
        requires tries { 0 < tries }
        ensures of { IsOf self.now.words hand.new }
        ensures quiet { IsQuiet (view hand.new) }
        ensures replied { IsReplied (system_of self.now.words) hand.old.caller wish (view hand.old) (view hand.new) result }
        ensures tried { HasTried (system_of self.now.words) wish tries (view hand.old) (view hand.new) result }
        ensures busy { IsBusyAfter (system_of self.now.words) self.now.words.setting.callers hand.old.caller wish tries (view hand.old) (view hand.new) result }
        ensures named { NamesProcess (system_of self.now.words) result }
        ensures gate { IsAnswered result → G.opens gate.old gate.new }
        ensures spared { ¬ IsAnswered result → gate.new ≡ gate.old }
    {
        let network = self.words.system().network();
        let plan = network.lock_plan(wish.process);
        if let Err((lock, holder)) = self.take_all(hand, wish.process, plan, tries) {
            return Reply::Busy { lock, holder };
        }
        self.answer(hand, wish, plan, gate)
    }
}
