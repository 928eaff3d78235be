//! The hall is closed: the passes are joined, and their lists and the journal are the report.
ghost use Rattle.std.specs.Prelude.{◌≡◌, ◌≤◌, [], All, IfErr, IfOk, length, map, vec_capacity};
ghost use Rattle.firing_words.specs.Views.{callers_of};

use crate::blank::{Blank, make_blank};
use crate::firing::Hall;
use crate::gathering::gather;
use crate::pass::Pass;
use firing_journal::{Asked, Entry, Journal, Report};
use firing_words::Hand;
use std::alloc::Global;

/// Why a hall was not closed; hall and passes are handed back as they were.
#[derive(Drop)]
pub enum CloseFault {
    /// There are fewer passes than callers.
    Missing {
        hall: Hall,
        passes: Vec<Pass>,
        have: u32,
        need: u32,
    },
    /// There are as many passes as callers, and memory for the report was missing.
    Memory {
        hall: Hall,
        passes: Vec<Pass>,
    },
}

impl Hall {
    ghost use Rattle.firing_words.specs.Hands.{IsOf, view};
    ghost use Rattle.firing_words.specs.Of.{system_of};
    ghost use Rattle.firing_hall.specs.Closing.{AreListsIn, IsCloseFaultOf, ProjectsToPaths};
    ghost use Rattle.firing_hall.specs.inside.Taking.{AreTaken, IsBlank, kept_in, total};
    ghost use Rattle.firing_hall.specs.Passes.{IsPassOf};
    ghost use Rattle.firing_journal.specs.Report.{IsLawful, lists_of};

    /// The journal and the lists, once all passes are taken in.
    fn report(&self, main: &mut Hand, mut entries: Vec<Entry>, lists: Vec<Vec<Asked>>) -> Report
        requires main { IsOf self.now.words main.old }
        requires size { length lists.items ≡ self.now.words.setting.callers }
        requires whole { length lists.items ≤ length (callers_of (view main.old)) }
        requires lists { AreTaken (system_of self.now.words) (view main.old) (map (λ v. v.items) lists.items) }
        requires no_entries { entries.items ≡ [] }
        requires space { total (map (λ v. v.items) lists.items) ≤ vec_capacity entries }
        ensures lawful { IsLawful (system_of self.now.words) result.journal (lists_of result) }
        ensures paths { ProjectsToPaths (system_of self.now.words) result.journal }
        ensures lists { result.callers.items ≡ lists.items }
    {
        let _system = self.words.system();
        let count = self.words.tell(main);
        gather(&mut entries, lists.as_slice(), count as usize);
        Report {
            journal: Journal::of_entries(entries),
            callers: lists,
        }
    }

    /// Fills a blank report.
    fn close_into(&self, passes: Vec<Pass>, blank: Blank) -> Report
        requires passes { All (IsPassOf self.now) passes.items }
        requires whole { self.now.words.setting.callers ≤ length passes.items }
        requires blank { IsBlank self.now.words.setting.callers (kept_in passes.items) blank }
        ensures lawful { IsLawful (system_of self.now.words) result.journal (lists_of result) }
        ensures paths { ProjectsToPaths (system_of self.now.words) result.journal }
        ensures size { length result.callers.items ≡ self.now.words.setting.callers }
        ensures lists { AreListsIn passes.items (lists_of result) }
    {
        let Blank { entries, mut lists } = blank;
        let mut main = self.take(passes, lists.as_mut_slice());
        self.report(&mut main, entries, lists)
    }

    /// Ends the hall: its one history is the report's journal, and list c is what pass c was told, whatever the order in which the passes
    /// are handed back. All memory is taken before the first pass is joined. Linear in the replies.
    pub fn close(self, alloc: Global, passes: Vec<Pass>) -> Result<Report, CloseFault>
        requires passes { All (IsPassOf self) passes.items }
        ensures err { IfErr result (IsCloseFaultOf self passes.items) }
        ensures whole { IfOk result (λ _. self.words.setting.callers ≤ length passes.items) }
        ensures lawful { IfOk result (λ r. IsLawful (system_of self.words) r.journal (lists_of r)) }
        ensures paths { IfOk result (λ r. ProjectsToPaths (system_of self.words) r.journal) }
        ensures size { IfOk result (λ r. length r.callers.items ≡ self.words.setting.callers) }
        ensures lists { IfOk result (λ r. AreListsIn passes.items (lists_of r)) }
    {
        let need = self.words.callers();
        if passes.len() < need as usize {
            let have = passes.len() as u32;
            return Err(CloseFault::Missing {
                hall: self,
                passes,
                have,
                need,
            });
        }
        match make_blank(alloc, passes.as_slice(), need) {
            Ok(blank) => Ok(self.close_into(passes, blank)),
            Err(_) => Err(CloseFault::Memory { hall: self, passes }),
        }
    }
}
