ghost use Rattle.std.specs.Prelude.{◌≡◌, [], IfOk, IfErr, OnOk};
ghost use Rattle.ctl_text.specs.Value.{network_of};
ghost use Rattle.firing_journal.specs.Journal.{JournalFits};
ghost use Rattle.skeleton_tool.specs.Answer.{spec_grammar, solution_grammar, NotRead};
ghost use Rattle.skeleton_tool.specs.Check.{certificate_grammar};
ghost use Rattle.skeleton_tool.specs.Command.{spec_limit, solution_limit, certificate_limit, journal_limit};
ghost use Rattle.skeleton_tool.specs.Reading.{IsRead, IsUnread};
ghost use Rattle.skeleton_tool.specs.Replay.{journal_grammar};
ghost use Rattle.skeleton_tool.specs.Taking.{shelf_seen, KeepsShelf, StopsAs};
ghost use Rattle.solution_text.specs.SolutionText.{AreOver};
ghost use Rattle.waitfor_check.specs.Fitting.{Fits};

use crate::refusal::refuse;
use crate::stop::Stop;
use crate::taking::take_file;
use certificate_text::read_certificate;
use conjunctive_compose::System;
use ctl_text::{Spec, read_spec};
use edge_io::Shelf;
use firing_journal::{Journal, read_journal};
use solution_text::{Solution, read_solution};
use std::alloc::Global;
use waitfor_check::Certificate;

/// The most bytes that a specification may have.
const MAX_SPEC: u64 = 1_048_576;

/// The most bytes that a solution may have.
const MAX_SOLUTION: u64 = 67_108_864;

/// The most bytes that a certificate may have.
const MAX_CERTIFICATE: u64 = 67_108_864;

/// The most bytes that a journal may have.
const MAX_JOURNAL: u64 = 536_870_912;

/// Takes the file of a specification, and reads it.
pub(crate) fn take_spec<S: Shelf>(
    alloc: Global,
    file: &str,
    shelf: &mut S,
    text: &mut Vec<u8>,
) -> Result<Spec, Stop>
    requires allowed { S.may_ask shelf.old file.now spec_limit }
    requires empty { text.old.items ≡ [] }
    ensures read { IfOk result (λ spec. IsRead spec_grammar (S.files shelf.old) file.now spec) }
    ensures nothing { OnOk result (text.new.items ≡ []) }
    ensures stopped { IfErr result (StopsAs (IsUnread spec_grammar (shelf_seen S.files S.faults S.longs shelf.old shelf.new) file.now) text.new.items) }
    ensures kept { KeepsShelf S.files S.faults S.longs S.may_ask shelf.old shelf.new }
{
    let bytes = take_file(alloc, file, MAX_SPEC, "spec", shelf, text)?;
    match read_spec(alloc, &bytes) {
        Ok(spec) => Ok(spec),
        Err(fault) => Err(refuse("spec", fault, text)),
    }
}

/// Takes the file of a solution, and reads it as one of this specification.
pub(crate) fn take_solution<S: Shelf>(
    alloc: Global,
    spec: &Spec,
    file: &str,
    shelf: &mut S,
    text: &mut Vec<u8>,
) -> Result<Solution, Stop>
    requires allowed { S.may_ask shelf.old file.now solution_limit }
    requires empty { text.old.items ≡ [] }
    ensures read { IfOk result (λ sol. IsRead (solution_grammar spec.now) (S.files shelf.old) file.now sol) }
    ensures over { IfOk result (λ sol. AreOver spec.now.roles spec.now.kinds sol) }
    ensures nothing { OnOk result (text.new.items ≡ []) }
    ensures stopped { IfErr result (StopsAs (IsUnread (solution_grammar spec.now) (shelf_seen S.files S.faults S.longs shelf.old shelf.new) file.now) text.new.items) }
    ensures kept { KeepsShelf S.files S.faults S.longs S.may_ask shelf.old shelf.new }
{
    let bytes = take_file(alloc, file, MAX_SOLUTION, "solution", shelf, text)?;
    match read_solution(alloc, spec, &bytes) {
        Ok(sol) => Ok(sol),
        Err(fault) => Err(refuse("solution", fault, text)),
    }
}

/// Takes the files of a specification and of a solution of it, and reads each before the next is taken.
pub(crate) fn take_both<S: Shelf>(
    alloc: Global,
    spec: &str,
    sol: &str,
    shelf: &mut S,
    text: &mut Vec<u8>,
) -> Result<(Spec, Solution), Stop>
    requires spec { S.may_ask shelf.old spec.now spec_limit }
    requires sol { S.may_ask shelf.old sol.now solution_limit }
    requires empty { text.old.items ≡ [] }
    ensures spec { IfOk result (λ both. IsRead spec_grammar (S.files shelf.old) spec.now both.0) }
    ensures sol { IfOk result (λ both. IsRead (solution_grammar both.0) (S.files shelf.old) sol.now both.1) }
    ensures over { IfOk result (λ both. AreOver both.0.roles both.0.kinds both.1) }
    ensures nothing { OnOk result (text.new.items ≡ []) }
    ensures stopped { IfErr result (StopsAs (NotRead (shelf_seen S.files S.faults S.longs shelf.old shelf.new) spec.now sol.now) text.new.items) }
    ensures kept { KeepsShelf S.files S.faults S.longs S.may_ask shelf.old shelf.new }
{
    let spec = take_spec(alloc, spec, shelf, text)?;
    let solution = match take_solution(alloc, &spec, sol, shelf, text) {
        Ok(solution) => solution,
        Err(stop) => return Err(stop),
    };
    Ok((spec, solution))
}

/// Takes the file of a journal, and reads it as one of this system.
pub(crate) fn take_journal<S: Shelf>(
    alloc: Global,
    system: &System,
    file: &str,
    shelf: &mut S,
    text: &mut Vec<u8>,
) -> Result<Journal, Stop>
    requires allowed { S.may_ask shelf.old file.now journal_limit }
    requires empty { text.old.items ≡ [] }
    ensures read { IfOk result (IsRead (journal_grammar system.now) (S.files shelf.old) file.now) }
    ensures fits { IfOk result (JournalFits system.now) }
    ensures nothing { OnOk result (text.new.items ≡ []) }
    ensures stopped { IfErr result (StopsAs (IsUnread (journal_grammar system.now) (shelf_seen S.files S.faults S.longs shelf.old shelf.new) file.now) text.new.items) }
    ensures kept { KeepsShelf S.files S.faults S.longs S.may_ask shelf.old shelf.new }
{
    let bytes = take_file(alloc, file, MAX_JOURNAL, "journal", shelf, text)?;
    match read_journal(alloc, system, &bytes) {
        Ok(journal) => Ok(journal),
        Err(fault) => Err(refuse("journal", fault, text)),
    }
}

/// Takes the file of a certificate, and reads it as one of this system, which is one of the specification.
pub(crate) fn take_certificate<S: Shelf>(
    alloc: Global,
    spec: &Spec,
    system: &System,
    file: &str,
    shelf: &mut S,
    text: &mut Vec<u8>,
) -> Result<Certificate, Stop>
    requires allowed { S.may_ask shelf.old file.now certificate_limit }
    requires network { system.now.network ≡ network_of spec.now }
    requires empty { text.old.items ≡ [] }
    ensures read { IfOk result (IsRead (certificate_grammar spec.now system.now) (S.files shelf.old) file.now) }
    ensures fits { IfOk result (Fits system.now) }
    ensures nothing { OnOk result (text.new.items ≡ []) }
    ensures stopped { IfErr result (StopsAs (IsUnread (certificate_grammar spec.now system.now) (shelf_seen S.files S.faults S.longs shelf.old shelf.new) file.now) text.new.items) }
    ensures kept { KeepsShelf S.files S.faults S.longs S.may_ask shelf.old shelf.new }
{
    let bytes = take_file(alloc, file, MAX_CERTIFICATE, "certificate", shelf, text)?;
    match read_certificate(alloc, spec, system, &bytes) {
        Ok(certificate) => Ok(certificate),
        Err(fault) => Err(refuse("certificate", fault, text)),
    }
}
