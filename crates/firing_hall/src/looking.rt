//! Looks without a lock.
ghost use Rattle.std.specs.Prelude.{◌≡◌, ◌<◌, ◌↔◌, length};
ghost use Rattle.conjunctive_compose.specs.System.{edge_count, process_count};
ghost use Rattle.firing_hall.specs.Passes.{kept_look, kept_pair_look, with_kept};
ghost use Rattle.firing_hall.specs.declared.looking.Looked.{Looked};
ghost use Rattle.firing_hall.specs.declared.looking.PairLooked.{PairLooked};

use crate::firing::Hall;
use crate::pass::Pass;
use firing_journal::Asked;

/// What a look at a process showed: how often it fired, and its local state after that.
#[derive(Clone, Copy, Debug, PartialEq, Eq)]
pub enum Looked {
    Seen { moves: u64, local: u8 },
    /// The pass has as many replies as it may have.
    Full,
}

/// What a look at an edge showed: how often its processes fired, and its pair state after that.
#[derive(Clone, Copy, Debug, PartialEq, Eq)]
pub enum PairLooked {
    Seen { moves: u64, state: u64 },
    /// The pass has as many replies as it may have.
    Full,
}

impl Hall {
    ghost use Rattle.firing_words.specs.Hands.{view};
    ghost use Rattle.firing_words.specs.Of.{system_of};
    ghost use Rattle.firing_hall.specs.Looks.{HasNoted, HasNotedPair, IsInOrder, IsPairInOrder};
    ghost use Rattle.firing_hall.specs.Passes.{IsPassOf};

    /// Looks at a process by one load, without a lock: how often it has fired, and its local state after that. The answer is no older
    /// than what this pass saw or did before.
    pub fn look(&self, pass: &mut Pass, process: u32) -> Looked
        requires of { IsPassOf self.now pass.old }
        requires within { process < process_count (system_of self.now.words) }
        ensures of { IsPassOf self.now pass.new }
        ensures asked { pass.new.asked.items ≡ with_kept pass.old.asked.items (kept_look process result) }
        ensures caller { pass.new.caller ≡ pass.old.caller }
        ensures noted { HasNoted process (view pass.old.hand) (view pass.new.hand) result }
        ensures order { IsInOrder (system_of self.now.words) pass.new.asked.items result }
        ensures full { (result ≡ Looked.Full) ↔ (length pass.old.asked.items ≡ self.now.words.setting.room) }
        ensures unchanged { result ≡ Looked.Full → pass.new ≡ pass.old }
    {
        if pass.asked.len() == pass.room as usize {
            return Looked::Full;
        }
        let _system = self.words.system();
        let (moves, local) = self.words.look(&mut pass.hand, process);
        pass.asked.push_reserved(Asked::Seen {
            process,
            moves,
            local,
        });
        Looked::Seen { moves, local }
    }

    /// Looks at an edge by one load, without a lock: how often its two processes have fired, and its pair state after that.
    pub fn look_pair(&self, pass: &mut Pass, edge: u32) -> PairLooked
        requires of { IsPassOf self.now pass.old }
        requires within { edge < edge_count (system_of self.now.words) }
        ensures of { IsPassOf self.now pass.new }
        ensures asked { pass.new.asked.items ≡ with_kept pass.old.asked.items (kept_pair_look edge result) }
        ensures caller { pass.new.caller ≡ pass.old.caller }
        ensures noted { HasNotedPair edge (view pass.old.hand) (view pass.new.hand) result }
        ensures order { IsPairInOrder (system_of self.now.words) pass.new.asked.items result }
        ensures full { (result ≡ PairLooked.Full) ↔ (length pass.old.asked.items ≡ self.now.words.setting.room) }
        ensures unchanged { result ≡ PairLooked.Full → pass.new ≡ pass.old }
    {
        if pass.asked.len() == pass.room as usize {
            return PairLooked::Full;
        }
        let _system = self.words.system();
        let (moves, state) = self.words.look_pair(&mut pass.hand, edge);
        pass.asked
            .push_reserved(Asked::SeenPair { edge, moves, state });
        PairLooked::Seen { moves, state }
    }
}
