ghost use Rattle.std.specs.Prelude.{◌≡◌, ◌<◌, [], length, IfNone, IfSome};
ghost use Rattle.skeleton_extract.specs.Commands.{AllRise, IsRising, commands_of, lists_of};
ghost use Rattle.skeleton_extract.specs.Permission.{permitted_of, picked};

use crate::Command;
use crate::permission::permitted_of;
use pair_structure::{Lists, Side};
use std::marker::Model;

/// For each side and each arc of that side's role the commands, rising by `other`, then `x`, then `set`.
#[derive(Debug, Drop)]
pub struct Skeleton {
    a: Lists<Command>,
    b: Lists<Command>,
}

impl Model for Skeleton {
    ghost use Rattle.skeleton_extract.specs.Commands.{AllRise, Lists};

    ghost Value = { Lists };

    ghost view = { λ s. record { a = s.a; b = s.b } };

    ghost invariant = { λ s. AllRise s.a × AllRise s.b };
}

impl Skeleton {
    pub(crate) fn of(a: Lists<Command>, b: Lists<Command>) -> Skeleton
        requires a_rise { AllRise a }
        requires b_rise { AllRise b }
        ensures { result ≡ record { a = a; b = b } }
    {
        Skeleton { a, b }
    }

    pub(crate) fn lists(&self, side: Side) -> &Lists<Command>
        ensures lists { result.now ≡ lists_of self.now side }
        ensures rise { AllRise (lists_of self.now side) }
    {
        match side {
            Side::A => &self.a,
            Side::B => &self.b,
        }
    }

    /// The commands of an arc of a side. Constant time.
    pub fn commands(&self, side: Side, arc: u32) -> &[Command]
        requires { arc < length (lists_of self.now side) }
        ensures commands { result.now ≡ commands_of self.now side arc }
        ensures rising { IsRising (commands_of self.now side arc) }
    {
        self.lists(side).list(arc as usize)
    }

    /// The value that one of the permitted commands sets: that number `pick`, counted round. None where no command is permitted.
    /// Logarithmic in the commands of the arc.
    pub fn choose(&self, side: Side, arc: u32, other: u8, x: u64, pick: u64) -> Option<u64>
        requires { arc < length (lists_of self.now side) }
        ensures none { IfNone result (permitted_of (commands_of self.now side arc) other x ≡ []) }
        ensures some { IfSome result (λ set. (0 < length (permitted_of (commands_of self.now side arc) other x)) × (set ≡ (picked (permitted_of (commands_of self.now side arc) other x) pick).set)) }
    {
        let permitted = permitted_of(self.commands(side, arc), other, x);
        if permitted.is_empty() {
            return None;
        }
        Some(permitted[(pick % permitted.len() as u64) as usize].set)
    }
}
