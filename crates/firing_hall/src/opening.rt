//! The hall is opened: all memory first, then the words, and a pass for each caller.
ghost use Rattle.std.specs.Prelude.{◌≡◌, ◌+◌, ◌^◌, ◌<◌, ◌≤◌, ℕ, [], All, IfErr, IfOk, length, vec_capacity};
ghost use Rattle.conjunctive_compose.specs.System.{edge_count, process_count};

use crate::firing::Hall;
use crate::lists::make_lists;
use crate::pass::Pass;
use conjunctive_compose::System;
use firing_journal::Asked;
use firing_words::{Hand, MAX_CALLERS, MAX_ROOM, Words};
use std::alloc::Global;

/// Why no hall was opened; the system is given back. The first that stands is told.
#[derive(Debug, Drop)]
pub enum HallFault {
    /// A hall has 1 to 64 callers.
    Callers { system: System },
    /// Each caller has room for 1 to 65,536 replies.
    Room { system: System },
    /// Memory was missing for the words or for a pass.
    Memory { system: System },
}

impl Hall {
    ghost use Rattle.firing_words.specs.Hands.{AreHands, IsFreshHand};
    ghost use Rattle.firing_words.specs.Of.{system_of};
    ghost use Rattle.firing_hall.specs.inside.Dealing.{HasRoom};
    ghost use Rattle.firing_hall.specs.Passes.{IsPassOf};
    ghost use Rattle.firing_hall.specs.Opening.{ArePasses, IsFaultOf, IsFresh, IsRoom, MayCall};

    /// The hall of a system at its start, and a pass for each caller: pass number c has caller number c, and no reply yet. No call takes
    /// memory after this one, up to the close. Linear in the system, and in callers and room.
    pub fn open(
        alloc: Global,
        system: System,
        callers: u32,
        room: u32,
    ) -> Result<(Hall, Vec<Pass>), HallFault>
        ensures err { IfErr result (IsFaultOf system callers room) }
        ensures numbers { IfOk result (λ r. MayCall callers × IsRoom room) }
        ensures hall { IfOk result (λ r. (system_of r.0.words ≡ system) × (r.0.words.setting.callers ≡ callers) × (r.0.words.setting.room ≡ room)) }
        ensures passes { IfOk result (λ r. ArePasses r.0 callers r.1.items) }
        ensures of { IfOk result (λ r. All (IsPassOf r.0) r.1.items) }
    {
        if callers == 0 || callers > MAX_CALLERS {
            return Err(HallFault::Callers { system });
        }
        if room == 0 || room > MAX_ROOM {
            return Err(HallFault::Room { system });
        }
        match Hall::open_within(alloc, system, callers, room) {
            Ok(opened) => Ok(opened),
            Err(system) => Err(HallFault::Memory { system }),
        }
    }

    /// The same for fitting numbers, where only memory may be missing.
    fn open_within(
        alloc: Global,
        system: System,
        callers: u32,
        room: u32,
    ) -> Result<(Hall, Vec<Pass>), System>
        requires callers { MayCall callers }
        requires room { IsRoom room }
        ensures err { IfErr result (λ s. s ≡ system) }
        ensures hall { IfOk result (λ r. (system_of r.0.words ≡ system) × (r.0.words.setting.callers ≡ callers) × (r.0.words.setting.room ≡ room)) }
        ensures passes { IfOk result (λ r. ArePasses r.0 callers r.1.items) }
    {
        let Ok(lists) = make_lists(alloc, callers, room) else {
            return Err(system);
        };
        let Ok(mut passes) = Vec::with_capacity(alloc, callers as usize) else {
            return Err(system);
        };
        match Words::open(alloc, system, callers, room) {
            Ok((words, hands)) => {
                let hall = Hall { words };
                hall.hand_out(hands, lists, &mut passes);
                Ok((hall, passes))
            }
            Err(system) => Err(system),
        }
    }

    /// A hand and a list make a pass.
    fn make_pass(&self, hand: Hand, asked: Vec<Asked>, caller: u32) -> Pass
        requires hand { IsFreshHand self.now.words caller hand }
        requires asked { HasRoom self.now.words.setting.room asked }
        requires below { caller < self.now.words.setting.callers }
        ensures { IsFresh self.now caller result }
    {
        let room = self.words.room();
        Pass {
            hand,
            caller,
            room,
            asked,
        }
    }

    /// A pass for each caller, from its hand and a list.
    fn hand_out(&self, mut hands: Vec<Hand>, mut lists: Vec<Vec<Asked>>, passes: &mut Vec<Pass>)
        requires hands { AreHands self.now.words self.now.words.setting.callers hands.items }
        requires lists { All (HasRoom self.now.words.setting.room) lists.items }
        requires as_many { length lists.items ≡ self.now.words.setting.callers }
        requires empty { passes.old.items ≡ [] }
        requires space { self.now.words.setting.callers ≤ vec_capacity passes.old }
        ensures { ArePasses self.now self.now.words.setting.callers passes.new.items }
    {
        for caller in 0..self.words.callers() {
            let hand = hands.remove(0);
            let Some(list) = lists.pop() else {
                unreachable!();
            };
            passes.push_reserved(self.make_pass(hand, list, caller));
        }
    }
}
