ghost use Rattle.std.specs.Prelude.{◌≡◌, ◌<◌, [], IfOk, length};
ghost use Rattle.conjunctive_compose.specs.System.{IsSystem};
ghost use Rattle.skeleton_tool.specs.Answer.{AnswersBoth};
ghost use Rattle.skeleton_tool.specs.Check.{AnswersCertificate, Checks, TellsVerdict, verdict_status};
ghost use Rattle.skeleton_tool.specs.Command.{spec_limit, solution_limit, certificate_limit};
ghost use Rattle.skeleton_tool.specs.Taking.{shelf_seen, EndsAs, KeepsShelf};
ghost use Rattle.solution_text.specs.SolutionText.{AreOver};
ghost use Rattle.waitfor_check.specs.Fitting.{Fits};

use crate::failing::solves_or_writes;
use crate::reading::{take_both, take_certificate};
use crate::status::Status;
use crate::stop::Stop;
use crate::third::system_of;
use crate::verdict_text::write_verdict;
use conjunctive_compose::System;
use ctl_text::Spec;
use edge_io::Shelf;
use pair_structure::Memory;
use solution_text::Solution;
use std::alloc::Global;
use waitfor_check::{Certificate, Verdict, check_certificate};

/// Writes whether the certificate of one file is accepted for the system of the other two, or what stands against it.
pub(crate) fn check<S: Shelf>(
    alloc: Global,
    spec: &str,
    sol: &str,
    certificate: &str,
    shelf: &mut S,
    text: &mut Vec<u8>,
) -> Result<Status, Stop>
    requires spec { S.may_ask shelf.old spec.now spec_limit }
    requires sol { S.may_ask shelf.old sol.now solution_limit }
    requires certificate { S.may_ask shelf.old certificate.now certificate_limit }
    requires empty { text.old.items ≡ [] }
    ensures ends { EndsAs (AnswersBoth (AnswersCertificate (shelf_seen S.files S.faults S.longs shelf.old shelf.new) certificate.now) (shelf_seen S.files S.faults S.longs shelf.old shelf.new) spec.now sol.now) text.new.items result }
    ensures kept { KeepsShelf S.files S.faults S.longs S.may_ask shelf.old shelf.new }
{
    let (spec, sol) = take_both(alloc, spec, sol, shelf, text)?;
    let system = system_of(alloc, &spec, &sol)?;
    let stars = match take_certificate(alloc, &spec, &system, certificate, shelf, text) {
        Ok(stars) => stars,
        Err(stop) => return Err(stop),
    };
    let status = tell_check(alloc, &spec, &sol, &system, &stars, text)?;
    Ok(status)
}

/// Writes the verdict on the certificate where the solution solves, or the first kind that fails.
fn tell_check(
    alloc: Global,
    spec: &Spec,
    sol: &Solution,
    system: &System,
    certificate: &Certificate,
    text: &mut Vec<u8>,
) -> Result<Status, Memory>
    requires over { AreOver spec.now.roles spec.now.kinds sol.now }
    requires system { IsSystem system.now }
    requires fits { Fits system.now certificate.now }
    requires empty { text.old.items ≡ [] }
    ensures answer { IfOk result (λ status. Checks spec.now sol.now system.now certificate.now status text.new.items) }
    ensures some { IfOk result (λ status. 0 < length text.new.items) }
{
    if !solves_or_writes(alloc, spec, sol, text)? {
        return Ok(Status::Fails);
    }
    let status = tell_verdict(alloc, system, certificate, text)?;
    Ok(status)
}

/// Writes the verdict on the certificate.
fn tell_verdict(
    alloc: Global,
    system: &System,
    certificate: &Certificate,
    text: &mut Vec<u8>,
) -> Result<Status, Memory>
    requires fits { Fits system.now certificate.now }
    requires empty { text.old.items ≡ [] }
    ensures answer { IfOk result (λ status. TellsVerdict system.now certificate.now status text.new.items) }
    ensures some { IfOk result (λ status. 0 < length text.new.items) }
{
    let verdict = check_certificate(alloc, system, certificate)?;
    write_verdict(system, verdict, text)?;
    Ok(status_of(verdict))
}

/// Done where the certificate is accepted.
fn status_of(verdict: Verdict) -> Status
    ensures { result ≡ verdict_status verdict }
{
    match verdict {
        Verdict::Accepted => Status::Done,
        _ => Status::Fails,
    }
}
