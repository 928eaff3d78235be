//! Callers that wait for each other, in their gates and in their policy: one caller after another could not meet.
ghost use Rattle.std.specs.Prelude.{◌≡◌, ◌<◌};
ghost use Rattle.firing_crew.specs.Policies.{chosen};

use conjunctive_compose::System;
use firing_crew::{Chooser, Policy, crew, crew_at};
use firing_hall::Gate;
use samples::{BOUND, FIRST, system};
use std::alloc::Global;
use std::sync::Arc;
use std::sync::atomic::{AtomicU64, Ordering};
use std::test::Fail;

/// How long a caller waits for another, in turns.
const TURNS: u64 = 200_000_000;

/// Twelve philosophers in a ring in which 0 and 1 are far apart.
fn ring(alloc: Global) -> Result<System, Fail> {
    let joins = "0-2:0 2-4:0 4-6:0 6-8:0 8-10:0 10-1:0 1-3:0 3-5:0 5-7:0 7-9:0 9-11:0 11-0:0";
    system(alloc, BOUND, FIRST, "12*0", joins)
}

/// Whether the number comes to be this one or more, in so many turns.
fn comes_to(number: &AtomicU64, least: u64) -> bool {
    for _ in 0..TURNS {
        if number.load(Ordering::SeqCst) >= least {
            return true;
        }
    }
    false
}

/// At its first call it raises its flag and waits for the other's.
#[derive(Drop)]
struct Meeting<'a> {
    own: &'a AtomicU64,
    other: &'a AtomicU64,
    called: bool,
    met: bool,
}

impl<'a> Gate for Meeting<'a> {
    ghost opens = { λ before now. now.own ≡ before.own };

    fn held(&mut self) {
        if self.called {
            return;
        }
        self.called = true;
        self.own.store(1, Ordering::SeqCst);
        self.met = comes_to(self.other, 1);
    }
}

#[test]
fn meets_in_the_gates(rt: HostRuntime) -> Result<(), Fail> {
    let alloc = rt.alloc();
    let (first, second) = (AtomicU64::new(0), AtomicU64::new(0));
    let mut gates = Vec::with_capacity(alloc, 2)?;
    let (own, other) = (&first, &second);
    gates.push(Meeting {
        own,
        other,
        called: false,
        met: false,
    })?;
    let (own, other) = (&second, &first);
    gates.push(Meeting {
        own,
        other,
        called: false,
        met: false,
    })?;
    let chooser: Chooser = Box::new(
        alloc,
        move |count: u64, word: u64| -> u64
            requires { 0 < count }
            ensures { result ≡ chosen 0 count word }
        { word % count },
    )?;
    let policy = Policy::new(chooser, 0);
    let Ok((report, gates)) = crew_at(&rt, alloc, ring(alloc)?, 2, 10, 0, &policy, gates) else {
        return Err(Fail::from("a report"));
    };
    assert_eq!(rt; report.callers.len(), 2);
    assert_eq!(rt; gates.len(), 2);
    for gate in &gates {
        assert!(rt; gate.met);
    }
    Ok(())
}

#[test]
fn meets_in_the_policy(rt: HostRuntime) -> Result<(), Fail> {
    let alloc = rt.alloc();
    let asked = Arc::new(alloc, AtomicU64::new(0))?;
    let missed = Arc::new(alloc, AtomicU64::new(0))?;
    let (asks, misses) = (Arc::try_clone(&asked)?, Arc::try_clone(&missed)?);
    let chooser: Chooser = Box::new(
        alloc,
        move |count: u64, word: u64| -> u64
            requires { 0 < count }
            ensures { result ≡ chosen 0 count word }
        {
            asks.fetch_add(1, Ordering::SeqCst);
            if !comes_to(&asks, 2) {
                misses.fetch_add(1, Ordering::SeqCst);
            }
            word % count
        },
    )?;
    let policy = Policy::new(chooser, 0);
    let Ok(report) = crew(&rt, alloc, ring(alloc)?, 2, 10, 0, &policy) else {
        return Err(Fail::from("a report"));
    };
    assert_eq!(rt; report.callers.len(), 2);
    assert!(rt; asked.load(Ordering::SeqCst) >= 2);
    assert_eq!(rt; missed.load(Ordering::SeqCst), 0);
    Ok(())
}
