//! A caller's pass, what it keeps of its calls, and firing with it.
ghost use Rattle.std.specs.Prelude.{◌≡◌, ◌<◌, ◌-◌, ◌↔◌, length};
ghost use Rattle.conjunctive_compose.specs.Firing.{WishFits};
ghost use Rattle.firing_hall.specs.Passes.{kept_of};
ghost use Rattle.firing_hall.specs.declared.reply.Reply.{Reply};

use crate::firing::Hall;
use crate::{Gate, OpenGate, Reply};
use conjunctive_compose::Wish;
use firing_journal::Asked;
use firing_words::Hand;

/// A caller's token: its number, what it was told, and its room. It is of the hall that the same `Hall::open` made, which every call that
/// takes both asks for. It goes to a thread of its own by value.
#[derive(Drop)]
pub struct Pass {
    pub(crate) hand: Hand,
    pub(crate) caller: u32,
    pub(crate) room: u32,
    pub(crate) asked: Vec<Asked>,
}

impl Pass {
    /// The number of the caller.
    pub fn caller(&self) -> u32
        ensures { result ≡ self.now.caller }
    {
        self.caller
    }

    /// The replies that it keeps, in order.
    pub fn asked(&self) -> &[Asked]
        ensures { result.now ≡ self.now.asked.items }
    {
        self.asked.as_slice()
    }

    /// How many replies it may still keep.
    pub fn left(&self) -> u32
        ensures { result ≡ self.now.room - length self.now.asked.items }
    {
        (self.room as usize).saturating_sub(self.asked.len()) as u32
    }
}

/// What a pass keeps of a reply: nothing of Full and of Busy.
fn asked_of(wish: Wish, reply: Reply) -> Option<Asked>
    ensures { result ≡ kept_of wish reply }
{
    match reply {
        Reply::Fired { number } => Some(Asked::Fired { wish, number }),
        Reply::Away { local, at } => Some(Asked::Away { wish, local, at }),
        Reply::Blocked { neighbour, at } => Some(Asked::Blocked {
            wish,
            neighbour,
            at,
        }),
        Reply::Full => None,
        Reply::Busy { .. } => None,
    }
}

impl Hall {
    ghost use Rattle.firing_words.specs.Hands.{view};
    ghost use Rattle.firing_words.specs.Of.{system_of};
    ghost use Rattle.firing_hall.specs.Gates.{IsAnswered};
    ghost use Rattle.firing_hall.specs.Halls.{HasMade, NamesProcess};
    ghost use Rattle.firing_hall.specs.Passes.{IsPassOf, with_kept};
    ghost use Rattle.firing_hall.specs.Tries.{HasTried, IsBusy, IsBusyAfter};

    /// Fires a wish, or says why not. A lock that another caller holds is tried again until this call has lost so many tries. The gate is
    /// called once, when all locks are held, and not where the reply is Full or Busy. Time: a step for each neighbour, and the tries.
    pub fn fire_at<G: Gate>(&self, pass: &mut Pass, wish: Wish, tries: u32, gate: &mut G) -> Reply
        requires of { IsPassOf self.now pass.old }
        requires fits { WishFits (system_of self.now.words) wish }
        requires tries { 0 < tries }
        ensures of { IsPassOf self.now pass.new }
        ensures asked { pass.new.asked.items ≡ with_kept pass.old.asked.items (kept_of wish result) }
        ensures caller { pass.new.caller ≡ pass.old.caller }
        ensures made { HasMade (system_of self.now.words) wish (view pass.old.hand) (view pass.new.hand) result }
        ensures tried { HasTried (system_of self.now.words) wish tries (view pass.old.hand) (view pass.new.hand) result }
        ensures busy { IsBusyAfter (system_of self.now.words) self.now.words.setting.callers pass.old.caller wish tries (view pass.old.hand) (view pass.new.hand) result }
        ensures alone { self.now.words.setting.callers ≡ 1 → ¬ IsBusy result }
        ensures named { NamesProcess (system_of self.now.words) result }
        ensures gate { IsAnswered result → G.opens gate.old gate.new }
        ensures spared { ¬ IsAnswered result → gate.new ≡ gate.old }
        ensures full { (result ≡ Reply.Full) ↔ (length pass.old.asked.items ≡ self.now.words.setting.room) }
        ensures unchanged { result ≡ Reply.Full → pass.new ≡ pass.old }
    {
        if pass.asked.len() == pass.room as usize {
            return Reply::Full;
        }
        let reply = self.fire_by(&mut pass.hand, wish, tries, gate);
        match asked_of(wish, reply) {
            Some(item) => pass.asked.push_reserved(item),
            None => {}
        }
        reply
    }

    /// The same without a gate.
    pub fn fire(&self, pass: &mut Pass, wish: Wish, tries: u32) -> Reply
        requires of { IsPassOf self.now pass.old }
        requires fits { WishFits (system_of self.now.words) wish }
        requires tries { 0 < tries }
        ensures of { IsPassOf self.now pass.new }
        ensures asked { pass.new.asked.items ≡ with_kept pass.old.asked.items (kept_of wish result) }
        ensures caller { pass.new.caller ≡ pass.old.caller }
        ensures made { HasMade (system_of self.now.words) wish (view pass.old.hand) (view pass.new.hand) result }
        ensures tried { HasTried (system_of self.now.words) wish tries (view pass.old.hand) (view pass.new.hand) result }
        ensures busy { IsBusyAfter (system_of self.now.words) self.now.words.setting.callers pass.old.caller wish tries (view pass.old.hand) (view pass.new.hand) result }
        ensures alone { self.now.words.setting.callers ≡ 1 → ¬ IsBusy result }
        ensures named { NamesProcess (system_of self.now.words) result }
        ensures full { (result ≡ Reply.Full) ↔ (length pass.old.asked.items ≡ self.now.words.setting.room) }
        ensures unchanged { result ≡ Reply.Full → pass.new ≡ pass.old }
    {
        self.fire_at(pass, wish, tries, &mut OpenGate)
    }

    /// As `fire_at` with one try: Busy comes at the first lock that another caller holds.
    pub fn try_fire_at<G: Gate>(&self, pass: &mut Pass, wish: Wish, gate: &mut G) -> Reply
        requires of { IsPassOf self.now pass.old }
        requires fits { WishFits (system_of self.now.words) wish }
        ensures of { IsPassOf self.now pass.new }
        ensures asked { pass.new.asked.items ≡ with_kept pass.old.asked.items (kept_of wish result) }
        ensures caller { pass.new.caller ≡ pass.old.caller }
        ensures made { HasMade (system_of self.now.words) wish (view pass.old.hand) (view pass.new.hand) result }
        ensures tried { HasTried (system_of self.now.words) wish 1 (view pass.old.hand) (view pass.new.hand) result }
        ensures busy { IsBusyAfter (system_of self.now.words) self.now.words.setting.callers pass.old.caller wish 1 (view pass.old.hand) (view pass.new.hand) result }
        ensures alone { self.now.words.setting.callers ≡ 1 → ¬ IsBusy result }
        ensures named { NamesProcess (system_of self.now.words) result }
        ensures gate { IsAnswered result → G.opens gate.old gate.new }
        ensures spared { ¬ IsAnswered result → gate.new ≡ gate.old }
        ensures full { (result ≡ Reply.Full) ↔ (length pass.old.asked.items ≡ self.now.words.setting.room) }
        ensures unchanged { result ≡ Reply.Full → pass.new ≡ pass.old }
    {
        self.fire_at(pass, wish, 1, gate)
    }

    /// As `fire` with one try.
    pub fn try_fire(&self, pass: &mut Pass, wish: Wish) -> Reply
        requires of { IsPassOf self.now pass.old }
        requires fits { WishFits (system_of self.now.words) wish }
        ensures of { IsPassOf self.now pass.new }
        ensures asked { pass.new.asked.items ≡ with_kept pass.old.asked.items (kept_of wish result) }
        ensures caller { pass.new.caller ≡ pass.old.caller }
        ensures made { HasMade (system_of self.now.words) wish (view pass.old.hand) (view pass.new.hand) result }
        ensures tried { HasTried (system_of self.now.words) wish 1 (view pass.old.hand) (view pass.new.hand) result }
        ensures busy { IsBusyAfter (system_of self.now.words) self.now.words.setting.callers pass.old.caller wish 1 (view pass.old.hand) (view pass.new.hand) result }
        ensures alone { self.now.words.setting.callers ≡ 1 → ¬ IsBusy result }
        ensures named { NamesProcess (system_of self.now.words) result }
        ensures full { (result ≡ Reply.Full) ↔ (length pass.old.asked.items ≡ self.now.words.setting.room) }
        ensures unchanged { result ≡ Reply.Full → pass.new ≡ pass.old }
    {
        self.fire_at(pass, wish, 1, &mut OpenGate)
    }
}
