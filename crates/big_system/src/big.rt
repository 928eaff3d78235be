//! The summary of the one report that a seed gives.
ghost use Rattle.std.specs.Prelude.{◌≡◌, ◌<◌, length, IfOk, OnErr, OnOk};
ghost use Rattle.firing_journal.specs.Report.{list_by, lists_of};
ghost use Rattle.firing_crew.specs.Crews.{IsCrewReport, orders_of};
ghost use Rattle.firing_crew.specs.Policies.{chosen};
ghost use Rattle.big_system.specs.Limits.{IsInLimits};
ghost use Rattle.big_system.specs.Summary.{HasSummary, IsSummaryOf};
ghost use Rattle.big_system.specs.Systems.{IsBigSystem};

use crate::locals::locals_after;
use crate::summary::write_summary;
use crate::system::system_of;
use conjunctive_compose::System;
use firing_crew::{Chooser, Policy, solo};
use firing_journal::{Asked, Report};
use pair_structure::Memory;
use std::alloc::Global;

/// Appends the summary, or nothing: a system of so many processes is made and fired by one caller, until it has so many replies. The same
/// three numbers give the same text. Linear in processes and replies; some 100 bytes for each reply while it runs.
pub fn write_big(
    alloc: Global,
    count: u64,
    rounds: u64,
    seed: u64,
    into: &mut Vec<u8>,
) -> Result<(), Memory>
    requires limits { IsInLimits count rounds }
    ensures summary { OnOk result (HasSummary count rounds seed into.old.items into.new.items) }
    ensures unchanged { OnErr result (into.new.items ≡ into.old.items) }
{
    let system = system_of(alloc, count as u32, seed)?;
    let text = summary_of(alloc, system, count as u32, rounds as u32, seed)?;
    into.extend_from_slice(&text)?;
    Ok(())
}

/// The summary of the system's report.
fn summary_of(
    alloc: Global,
    system: System,
    count: u32,
    rounds: u32,
    seed: u64,
) -> Result<Vec<u8>, Memory>
    requires { IsBigSystem count seed system }
    ensures { IfOk result (λ text. IsSummaryOf count rounds seed text.items) }
{
    let report = report_of(alloc, system, rounds, seed)?;
    let locals = locals_after(alloc, count as usize, report.journal.entries())?;
    let mut text = Vec::new(alloc);
    write_summary(
        count as u64,
        rounds as u64,
        seed,
        first_list(&report),
        &locals,
        &mut text,
    )?;
    Ok(text)
}

/// What the one caller was told.
fn first_list(report: &Report) -> &[Asked]
    requires { length (lists_of report.now) ≡ 1 }
    ensures { result.now ≡ list_by (lists_of report.now) 0 }
{
    &report.callers[0]
}

/// The report of one caller, with a policy that adds nothing to its words.
fn report_of(alloc: Global, system: System, rounds: u32, seed: u64) -> Result<Report, Memory>
    ensures { IfOk result (IsCrewReport system (orders_of 1 rounds seed 0)) }
{
    let chooser: Chooser = Box::new(
        alloc,
        |count: u64, word: u64| -> u64
            requires { 0 < count }
            ensures { result ≡ chosen 0 count word }
        { word % count },
    )?;
    let policy = Policy::new(chooser, 0);
    match solo(alloc, system, rounds, seed, &policy) {
        Ok(report) => Ok(report),
        Err(_) => Err(Memory),
    }
}
