//! A worker between two replies, and what comes next.
ghost use Rattle.std.specs.Prelude.{◌≡◌, ◌<◌, None, IfOk, IfSome, length};
ghost use Rattle.conjunctive_compose.specs.Firing.{WishFits, arc_of};
ghost use Rattle.conjunctive_compose.specs.System.{IsSystem, process_count};
ghost use Rattle.firing_hall.specs.Halls.{NamesProcess};
ghost use Rattle.firing_hall.specs.Passes.{kept_of};
ghost use Rattle.firing_crew.specs.Choice.{leaving_count};
ghost use Rattle.firing_crew.specs.Draws.{first_state};
ghost use Rattle.firing_crew.specs.Workers.{IsNextWish, after_reply, after_wish, arcs_of, local_of, moved, process_after};
ghost use Rattle.firing_crew.specs.declared.draw.TheConstants.{MODULUS};
ghost use Rattle.firing_crew.specs.inside.Working.{IsWorkerOf};

use crate::choice::{count_leaving, leaving_arc};
use crate::{Policy, draw};
use conjunctive_compose::{System, Wish};
use firing_hall::Reply;
use pair_structure::{LocalArc, Memory};
use std::alloc::Global;
use std::marker::Model;

/// A caller's number, the process of its next wish, the last word that it drew, the local states that the start and its own firings give,
/// and the neighbour that it looks at next.
#[derive(Debug, Drop)]
pub(crate) struct Worker {
    caller: u32,
    next: u32,
    word: u64,
    locals: Vec<u8>,
    look: Option<u32>,
}

impl Model for Worker {
    ghost use Rattle.firing_crew.specs.Workers.{WorkerParts};

    ghost Value = { WorkerParts };

    ghost view = { λ w. record { caller = w.caller; next = w.next; word = w.word; locals = w.locals.items; look = w.look } };
}

// The arcs of a process's role.
fn arcs_in(system: &System, process: u32) -> &[LocalArc]
    requires { process < process_count system.now }
    ensures arcs { result.now ≡ arcs_of system.now process }
    ensures system { IsSystem system.now }
{
    let network = system.network();
    let number = network.processes()[process as usize].role;
    network.roles()[number as usize].arcs()
}

// The local state that a wish leads its process to.
fn goal_of(system: &System, wish: Wish) -> u8
    requires { WishFits system.now wish }
    ensures { result ≡ (arc_of system.now wish.process wish.arc).to }
{
    arcs_in(system, wish.process)[wish.arc as usize].to
}

// The process that comes after this one for a caller.
fn process_behind(processes: u32, callers: u32, caller: u32, process: u32) -> u32
    requires { process < processes }
    ensures { result ≡ process_after processes callers caller process }
{
    if callers < processes - process {
        process + callers
    } else {
        caller
    }
}

impl Worker {
    /// A caller's worker before its first reply, at these local states.
    pub(crate) fn new(
        alloc: Global,
        locals: &[u8],
        seed: u64,
        caller: u32,
    ) -> Result<Worker, Memory>
        ensures { IfOk result (λ w. w ≡ record { caller = caller; next = caller; word = first_state seed caller; locals = locals.now; look = None }) }
    {
        Ok(Worker {
            caller,
            next: caller,
            word: draw::start(seed, caller),
            locals: Vec::from_slice(alloc, locals)?,
            look: None,
        })
    }

    /// The neighbour that it looks at next.
    pub(crate) fn look(&self) -> Option<u32>
        ensures { result ≡ self.now.look }
    {
        self.look
    }

    // The local state of its next process.
    fn local(&self) -> u8
        requires { self.now.next < length self.now.locals }
        ensures { result ≡ local_of self.now }
    {
        self.locals[self.next as usize]
    }

    // The arcs of the process.
    fn arcs<'a>(&self, system: &'a System) -> &'a [LocalArc]
        requires { self.now.next < process_count system.now }
        ensures arcs { result.now ≡ arcs_of system.now self.now.next }
        ensures system { IsSystem system.now }
    {
        arcs_in(system, self.next)
    }

    // How many arcs leave the local state; some do.
    fn count_arcs(&self, system: &System) -> u64
        requires { IsWorkerOf system.now self.now }
        ensures count { result ≡ leaving_count (arcs_of system.now self.now.next) (local_of self.now) }
        ensures some { 0 < result }
    {
        count_leaving(self.arcs(system), self.local()) as u64
    }

    /// Its next wish.
    pub(crate) fn wish(&self, system: &System, policy: &Policy) -> Wish
        requires { IsWorkerOf system.now self.now }
        ensures next { IsNextWish system.now policy.now.turn self.now result }
        ensures fits { WishFits system.now result }
    {
        let count = self.count_arcs(system);
        let first = draw::next(self.word);
        let nth = policy.choose(count, first);
        let arc = leaving_arc(self.arcs(system), self.local(), nth);
        Wish {
            process: self.next,
            arc: arc as u32,
            pick: draw::next(first),
        }
    }

    // Its process takes the arc.
    fn take_arc(&mut self, system: &System, wish: Wish)
        requires fits { WishFits system.now wish }
        requires size { length self.old.locals ≡ process_count system.now }
        ensures { self.new ≡ record { caller = self.old.caller; next = self.old.next; word = self.old.word; locals = moved system.now self.old.locals wish; look = self.old.look } }
    {
        self.locals[wish.process as usize] = goal_of(system, wish);
    }

    // It turns to the next of its processes, with this neighbour to look at first.
    fn turn(&mut self, processes: u32, callers: u32, look: Option<u32>)
        requires next { self.old.next < processes }
        requires word { self.old.word < MODULUS }
        ensures { self.new ≡ after_wish processes callers self.old self.old.locals look }
    {
        self.next = process_behind(processes, callers, self.caller, self.next);
        self.word = draw::next(draw::next(self.word));
        self.look = look;
    }

    /// Takes in what its wish was answered.
    pub(crate) fn hear(&mut self, system: &System, callers: u32, wish: Wish, reply: Reply)
        requires of { IsWorkerOf system.now self.old }
        requires fits { WishFits system.now wish }
        requires named { NamesProcess system.now reply }
        ensures heard { IfSome (kept_of wish reply) (λ asked. self.new ≡ after_reply system.now callers self.old asked) }
        ensures of { IsWorkerOf system.now self.new }
    {
        let processes = system.network().processes().len() as u32;
        match reply {
            Reply::Fired { .. } => {
                self.take_arc(system, wish);
                self.turn(processes, callers, None);
            }
            Reply::Away { .. } => self.turn(processes, callers, None),
            Reply::Blocked { neighbour, .. } => self.turn(processes, callers, Some(neighbour)),
            Reply::Full => {}
            Reply::Busy { .. } => {}
        }
    }

    /// Has looked.
    pub(crate) fn look_away(&mut self)
        ensures { self.new ≡ record { caller = self.old.caller; next = self.old.next; word = self.old.word; locals = self.old.locals; look = None } }
    {
        self.look = None;
    }
}
