ghost use Rattle.std.specs.Prelude.{◌≡◌, ◌++◌, OnOk};
ghost use Rattle.skeleton_tool.specs.Check.{step_text, verdict_text};
ghost use Rattle.skeleton_tool.specs.inside.Telling.{NamesProcess};

use crate::run_text::{process_name, write_name, write_number};
use conjunctive_compose::System;
use std::alloc::AllocError;
use waitfor_check::Verdict;

/// Appends the words of a verdict, with the name or the numbers of what stands against the certificate.
pub(crate) fn write_verdict(
    system: &System,
    verdict: Verdict,
    into: &mut Vec<u8>,
) -> Result<(), AllocError>
    requires { NamesProcess system.now verdict }
    ensures { OnOk result (into.new.items ≡ into.old.items ++ verdict_text system.now verdict) }
{
    match verdict {
        Verdict::Accepted => {
            into.extend_from_slice(b"accepted\n")?;
            Ok(())
        }
        Verdict::NoPeelAtStart => {
            into.extend_from_slice(b"no-peel\n")?;
            Ok(())
        }
        Verdict::ShapeMissing { process } => {
            into.extend_from_slice(b"shape-missing ")?;
            write_name(process_name(system, process), into)?;
            into.extend_from_slice(b"\n")?;
            Ok(())
        }
        Verdict::StartMissing { star } => {
            into.extend_from_slice(b"start-missing ")?;
            write_number(star, into)?;
            into.extend_from_slice(b"\n")?;
            Ok(())
        }
        Verdict::NotClosed { star, member, step } => {
            into.extend_from_slice(b"not-closed ")?;
            write_step(star, member, step, into)?;
            Ok(())
        }
        Verdict::Waits { star, member, step } => {
            into.extend_from_slice(b"waits ")?;
            write_step(star, member, step, into)?;
            Ok(())
        }
    }
}

fn write_step(star: u64, member: u64, step: u64, into: &mut Vec<u8>) -> Result<(), AllocError>
    ensures { OnOk result (into.new.items ≡ into.old.items ++ step_text star member step) }
{
    write_number(star, into)?;
    into.extend_from_slice(b" ")?;
    write_number(member, into)?;
    into.extend_from_slice(b" ")?;
    write_number(step, into)?;
    into.extend_from_slice(b"\n")?;
    Ok(())
}
