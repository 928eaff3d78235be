ghost use Rattle.std.specs.Prelude.{◌≡◌, ℕ, List, [], IfErr, IfOk, MatchResult};
ghost use Rattle.text_cause.specs.declared.cause.TextCause.{TextCause};
ghost use Rattle.text_cause.specs.Answers.{IsFaultAt, IsRefusalFrom};
ghost use Rattle.text_cause.specs.Grammar.{StandsFor};
ghost use Rattle.strict_text.specs.Lines.{lines_of};
ghost use Rattle.firing_journal.specs.declared.journal.Entry.{Entry};
ghost use Rattle.firing_journal.specs.Journal.{JournalFits};
ghost use Rattle.firing_journal.specs.Place.{among_entries};
ghost use Rattle.firing_journal.specs.Text.{IsJournalText, IsRefusal, IsRefused, journals};

use crate::Journal;
use crate::judge::{judge, judge_head};
use conjunctive_compose::System;
use std::alloc::Global;
use strict_text::cut_line;
use text_cause::{TextCause, TextFault};

/// The journal of which the bytes are a text for this system, or the first bad line with its lowest cause. Nothing behind the line `done`
/// is read. One pass over the text.
pub fn read_journal(alloc: Global, system: &System, bytes: &[u8]) -> Result<Journal, TextFault>
    ensures text { IfOk result (IsJournalText system.now bytes.now) }
    ensures fits { IfOk result (JournalFits system.now) }
    ensures refused { IfErr result (IsRefusal system.now bytes.now) }
    ensures only { (v : List Entry) → IsJournalText system.now bytes.now v → MatchResult result (λ j. j ≡ v) (λ fault. fault ≡ TextFault.Memory) }
    ensures refused_only { (at : ℕ) (cause : TextCause) → IsRefused system.now bytes.now at cause → MatchResult result (λ j. ⊥) (IsFaultAt at cause) }
{
    read_text(alloc, system, bytes)
}

fn read_text(alloc: Global, system: &System, bytes: &[u8]) -> Result<Journal, TextFault>
    ensures text { IfOk result (IsJournalText system.now bytes.now) }
    ensures fits { IfOk result (JournalFits system.now) }
    ensures refused { IfErr result (IsRefusal system.now bytes.now) }
{
    if bytes.is_empty() {
        return Err(TextFault::At {
            line: 1,
            what: TextCause::BadHead,
        });
    }
    let (head, rest) = cut_line(bytes);
    match judge_head(system, head) {
        Ok(()) => read_entries(alloc, system, rest),
        Err(what) => Err(TextFault::At { line: 1, what }),
    }
}

/// The journal below the head.
fn read_entries(alloc: Global, system: &System, bytes: &[u8]) -> Result<Journal, TextFault>
    ensures text { IfOk result (StandsFor (journals system.now) (among_entries []) (lines_of bytes.now)) }
    ensures refused { IfErr result (IsRefusalFrom (journals system.now) (among_entries []) 2 (lines_of bytes.now)) }
    ensures fits { IfOk result (JournalFits system.now) }
{
    let mut journal = Journal::new(alloc);
    let mut rest = bytes;
    let mut line: u64 = 2;
    while !rest.is_empty() {
        let (front, behind) = cut_line(rest);
        match judge(system, &journal, front) {
            Ok(Some((caller, wish))) => match journal.push(caller, wish) {
                Ok(()) => {}
                Err(_) => return Err(TextFault::Memory),
            },
            Ok(None) => return Ok(journal),
            Err(what) => return Err(TextFault::At { line, what }),
        }
        rest = behind;
        line += 1;
    }
    Err(TextFault::At {
        line,
        what: TextCause::BadLine,
    })
}
