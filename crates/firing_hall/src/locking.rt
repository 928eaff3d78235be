//! The locks of a plan are taken one after another, or none of them, and given up.
ghost use Rattle.std.specs.Prelude.{◌≡◌, ◌≢◌, ◌+◌, ◌<◌, ◌≤◌, List, ◌∷◌, [], length, take, IfErr, IfNone, IfSome, OnOk};
ghost use Rattle.firing_words.specs.Cells.{InPlan, lock_count};
ghost use Rattle.firing_words.specs.Lists.{Has};
ghost use Rattle.firing_words.specs.Views.{IsOne, IsQuiet};
ghost use Rattle.firing_hall.specs.inside.Locks.{HoldsOnly, IsBare, IsPlan, KnowsHeld};
ghost use Rattle.firing_hall.specs.Items.{SameItems};

use crate::firing::Hall;
use crossbeam_utils::Backoff;
use firing_words::Hand;

impl Hall {
    ghost use Rattle.firing_words.specs.Hands.{IsOf, view};
    ghost use Rattle.firing_words.specs.Of.{system_of};
    ghost use Rattle.firing_words.specs.declared.view.Try.{Try};
    ghost use Rattle.firing_hall.specs.Tries.{HaveLost, IsRefused, try_at};

    /// Takes one lock with the tries that are left, or says who had it at the last of them.
    fn take_one(&self, hand: &mut Hand, process: u32, lock: u32, left: &mut u32) -> Option<u32>
        requires of { IsOf self.now.words hand.old }
        requires planned { InPlan (system_of self.now.words) process lock }
        requires lock { lock < lock_count (system_of self.now.words) }
        requires mine { IsOne (view hand.old) }
        requires free { ¬ Has lock (view hand.old).held }
        requires left { 0 < left.old }
        ensures of { IsOf self.now.words hand.new }
        ensures caller { hand.new.caller ≡ hand.old.caller }
        ensures items { SameItems (view hand.old) (view hand.new) }
        ensures rest { ((view hand.new).known ≡ (view hand.old).known) × ((view hand.new).owed ≡ (view hand.old).owed) }
        ensures taken { IfNone result ((view hand.new).held ≡ lock ∷ (view hand.old).held) }
        ensures lost { IfSome result (λ h. (h ≢ hand.old.caller) × (h < self.now.words.setting.callers) × ((view hand.new).held ≡ (view hand.old).held)) }
        ensures tries { IfNone result ((lost : List Try) × HaveLost (system_of self.now.words) process lost (view hand.old) (view hand.new) × (length lost + left.new ≡ left.old)) }
        ensures refused { IfSome result (λ h. IsRefused (system_of self.now.words) process left.old (try_at lock h) (view hand.old) (view hand.new)) }
        ensures some_left { IfNone result (0 < left.new) }
        ensures none_left { IfSome result (λ _. left.new ≡ 0) }
    {
        let backoff = Backoff::new();
        let mut holder = 0;
        for _ in 0..*left {
            match self.words.lock(hand, lock) {
                Ok(()) => return None,
                Err(other) => holder = other,
            }
            *left -= 1;
            backoff.spin();
        }
        Some(holder)
    }

    /// Gives up the first locks of a plan.
    pub(crate) fn release(&self, hand: &mut Hand, process: u32, plan: &[u32], taken: usize)
        requires of { IsOf self.now.words hand.old }
        requires plan { IsPlan (system_of self.now.words) process plan.now }
        requires taken { taken ≤ length plan.now }
        requires held { HoldsOnly (view hand.old) (take taken plan.now) }
        requires known { KnowsHeld (system_of self.now.words) (view hand.old) }
        requires owed { (view hand.old).owed ≡ [] }
        ensures of { IsOf self.now.words hand.new }
        ensures quiet { IsQuiet (view hand.new) }
        ensures tracks { (view hand.new).tracks ≡ (view hand.old).tracks }
    {
        for i in 0..taken {
            self.words.unlock(hand, plan[i]);
        }
    }

    /// Takes all locks of a plan, or none, and then says which it did not get, and who had it.
    pub(crate) fn take_all(
        &self,
        hand: &mut Hand,
        process: u32,
        plan: &[u32],
        tries: u32,
    ) -> Result<(), (u32, u32)>
        requires of { IsOf self.now.words hand.old }
        requires plan { IsPlan (system_of self.now.words) process plan.now }
        requires mine { IsOne (view hand.old) }
        requires quiet { IsQuiet (view hand.old) }
        requires tries { 0 < tries }
        ensures of { IsOf self.now.words hand.new }
        ensures items { SameItems (view hand.old) (view hand.new) }
        ensures ok { OnOk result (HoldsOnly (view hand.new) plan.now × IsBare (view hand.new)) }
        ensures tried { OnOk result ((lost : List Try) × HaveLost (system_of self.now.words) process lost (view hand.old) (view hand.new) × (length lost < tries)) }
        ensures refused { IfErr result (λ e. IsRefused (system_of self.now.words) process tries (try_at e.0 e.1) (view hand.old) (view hand.new)) }
        ensures err { IfErr result (λ e. InPlan (system_of self.now.words) process e.0 × (e.1 ≢ hand.old.caller) × (e.1 < self.now.words.setting.callers) × IsQuiet (view hand.new)) }
    {
        let mut left = tries;
        for i in 0..plan.len() {
            match self.take_one(hand, process, plan[i], &mut left) {
                None => {}
                Some(holder) => {
                    self.release(hand, process, plan, i);
                    return Err((plan[i], holder));
                }
            }
        }
        Ok(())
    }
}
