ghost use Rattle.std.specs.Prelude.{All, IfOk};
ghost use Rattle.waitfor_check.specs.inside.Fits.{IsFitting};
ghost use Rattle.waitfor_check.specs.Fitting.{Fits};
ghost use Rattle.waitfor_check.specs.Verdicts.{HasShapes, IsVerdict, RunsGoOn};

use crate::certificate::Certificate;
use crate::laws::accepted_goes_on;
use crate::parts::{
    first_open, first_waiting, first_without_shape, first_without_start, starts_with_peel_order,
};
use crate::star::Star;
use conjunctive_compose::System;
use pair_structure::Memory;
use std::alloc::Global;

/// What a check of a certificate answers: the lowest that stands, and of one number the first process, star, member and
/// step.
#[derive(Clone, Copy, Debug, PartialEq, Eq)]
pub enum Verdict {
    /// Every run of the system ends in a whole state that enables a process, if there is one.
    Accepted,
    /// The start of the system has no peel order.
    NoPeelAtStart,
    /// Some shape of this process is no star's.
    ShapeMissing { process: u32 },
    /// The star state in which every pair begins is no member.
    StartMissing { star: u64 },
    /// This step of a member reaches no member.
    NotClosed { star: u64, member: u64, step: u64 },
    /// After this step of the centre some leaf waits, and the centre cannot go.
    Waits { star: u64, member: u64, step: u64 },
}

/// Checks a certificate against deadlock. For each step of each member one binary search among the star's members.
pub fn check_certificate(
    alloc: Global,
    system: &System,
    certificate: &Certificate,
) -> Result<Verdict, Memory>
    requires { Fits system.now certificate.now }
    ensures verdict { IfOk result (IsVerdict system.now certificate.now) }
    ensures goes_on { IfOk result (RunsGoOn system.now) }
{
    let _network = system.network();
    accepted_goes_on();
    if !starts_with_peel_order(alloc, system)? {
        return Ok(Verdict::NoPeelAtStart);
    }
    if let Some(process) = first_without_shape(alloc, system, certificate)? {
        return Ok(Verdict::ShapeMissing { process });
    }
    let verdict = check_stars(alloc, system, certificate.stars())?;
    Ok(verdict)
}

/// The verdict on the stars, where the start has a peel order and each shape is a star's.
fn check_stars(alloc: Global, system: &System, stars: &[Star]) -> Result<Verdict, Memory>
    requires fits { All (IsFitting system.now) stars.now }
    requires shapes { HasShapes system.now stars.now }
    ensures { IfOk result (IsVerdict system.now stars.now) }
{
    if let Some(star) = first_without_start(alloc, system, stars)? {
        return Ok(Verdict::StartMissing { star });
    }
    if let Some(at) = first_open(alloc, system, stars)? {
        return Ok(Verdict::NotClosed {
            star: at.star,
            member: at.place.member,
            step: at.place.step,
        });
    }
    if let Some(at) = first_waiting(alloc, system, stars)? {
        return Ok(Verdict::Waits {
            star: at.star,
            member: at.place.member,
            step: at.place.step,
        });
    }
    Ok(Verdict::Accepted)
}
