//! The passes are joined into one hand, and the list of each is put at its caller's number.
ghost use Rattle.std.specs.Prelude.{◌≡◌, ◌⊎◌, ◌+◌, ◌≤◌, ◌<◌, ◌∷◌, ◌++◌, [], All, length, map, slice_set};
ghost use Rattle.firing_words.specs.Lists.{Has};
ghost use Rattle.firing_words.specs.Views.{IsQuiet, callers_of};

use crate::firing::Hall;
use crate::pass::Pass;
use firing_journal::Asked;
use firing_words::Hand;

impl Hall {
    ghost use Rattle.firing_words.specs.Hands.{IsOf, view};
    ghost use Rattle.firing_words.specs.Of.{system_of};
    ghost use Rattle.firing_hall.specs.Closing.{AreListsIn};
    ghost use Rattle.firing_hall.specs.inside.Taking.{AreTaken, IsListed, kept_in, total};
    ghost use Rattle.firing_hall.specs.Passes.{IsPassOf};
    ghost use Rattle.firing_hall.specs.declared.pass.Pass.{Pass};

    /// Joins a pass, and puts its list at its caller's number.
    fn take_in(&self, main: &mut Hand, pass: Pass, lists: &mut [Vec<Asked>])
        requires main { IsOf self.now.words main.old × IsQuiet (view main.old) }
        requires pass { IsPassOf self.now pass }
        requires size { length lists.old ≡ self.now.words.setting.callers }
        requires lists { AreTaken (system_of self.now.words) (view main.old) (map (λ v. v.items) lists.old) }
        ensures main { IsOf self.now.words main.new × IsQuiet (view main.new) }
        ensures callers { callers_of (view main.new) ≡ callers_of (view main.old) ++ pass.caller ∷ [] }
        ensures size { length lists.new ≡ length lists.old }
        ensures lists { AreTaken (system_of self.now.words) (view main.new) (map (λ v. v.items) lists.new) }
        ensures apart { ¬ Has pass.caller (callers_of (view main.old)) }
        ensures within { pass.caller < length lists.old }
        ensures placed { map (λ v. v.items) lists.new ≡ slice_set (map (λ v. v.items) lists.old) pass.caller pass.asked.items }
    {
        let Pass {
            hand,
            caller,
            room: _,
            asked,
        } = pass;
        self.words.join(main, hand);
        let at = caller as usize;
        let within = at < lists.len();
        prove!(within);
        lists[at] = asked;
    }

    /// The first pass that is taken.
    fn begin(&self, pass: Pass, lists: &mut [Vec<Asked>]) -> Hand
        requires pass { IsPassOf self.now pass }
        requires size { length lists.old ≡ self.now.words.setting.callers }
        ensures main { IsOf self.now.words result × IsQuiet (view result) }
        ensures callers { callers_of (view result) ≡ pass.caller ∷ [] }
        ensures within { pass.caller < length lists.old }
        ensures placed { map (λ v. v.items) lists.new ≡ slice_set (map (λ v. v.items) lists.old) pass.caller pass.asked.items }
        ensures size { length lists.new ≡ length lists.old }
        ensures lists { AreTaken (system_of self.now.words) (view result) (map (λ v. v.items) lists.new) }
    {
        let Pass {
            mut hand,
            caller,
            room: _,
            asked,
        } = pass;
        self.words.tell(&mut hand);
        let at = caller as usize;
        let within = at < lists.len();
        prove!(within);
        lists[at] = asked;
        hand
    }

    /// Joins all passes.
    fn take_rest(&self, main: &mut Hand, mut passes: Vec<Pass>, lists: &mut [Vec<Asked>])
        requires main { IsOf self.now.words main.old × IsQuiet (view main.old) }
        requires passes { All (IsPassOf self.now) passes.items }
        requires size { length lists.old ≡ self.now.words.setting.callers }
        requires lists { AreTaken (system_of self.now.words) (view main.old) (map (λ v. v.items) lists.old) }
        ensures main { IsOf self.now.words main.new × IsQuiet (view main.new) }
        ensures callers { length (callers_of (view main.new)) ≡ length (callers_of (view main.old)) + length passes.items }
        ensures size { length lists.new ≡ length lists.old }
        ensures lists { AreTaken (system_of self.now.words) (view main.new) (map (λ v. v.items) lists.new) }
        ensures few { total (map (λ v. v.items) lists.new) ≤ total (map (λ v. v.items) lists.old) + kept_in passes.items }
        ensures listed { (p : Pass) → Has p passes.items ⊎ IsListed (callers_of (view main.old)) (map (λ v. v.items) lists.old) p → IsListed (callers_of (view main.new)) (map (λ v. v.items) lists.new) p }
    {
        while let Some(pass) = passes.pop() {
            self.take_in(main, pass, lists);
        }
    }

    /// Joins all passes, one at least, into one hand.
    pub(crate) fn take(&self, mut passes: Vec<Pass>, lists: &mut [Vec<Asked>]) -> Hand
        requires passes { All (IsPassOf self.now) passes.items }
        requires some { 0 < length passes.items }
        requires size { length lists.old ≡ self.now.words.setting.callers }
        ensures main { IsOf self.now.words result }
        ensures callers { length (callers_of (view result)) ≡ length passes.items }
        ensures size { length lists.new ≡ length lists.old }
        ensures lists { AreTaken (system_of self.now.words) (view result) (map (λ v. v.items) lists.new) }
        ensures few { total (map (λ v. v.items) lists.new) ≤ total (map (λ v. v.items) lists.old) + kept_in passes.items }
        ensures listed { AreListsIn passes.items (map (λ v. v.items) lists.new) }
    {
        let Some(first) = passes.pop() else {
            unreachable!();
        };
        let mut main = self.begin(first, lists);
        self.take_rest(&mut main, passes, lists);
        main
    }
}
