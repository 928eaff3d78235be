ghost use Rattle.std.specs.Prelude.{◌<◌, ◌↔◌, ℕ, length, IsTrue, List, MatchOption};
ghost use Rattle.pair_structure.specs.inside.FirstFailing.{IsFirstFailing};
ghost use Rattle.interconnection.specs.declared.parts.Edge.{Edge};
ghost use Rattle.interconnection.specs.Network.{BeginsInStart, HasRole, ends_of, process_at, role_of};
ghost use Rattle.interconnection.specs.inside.NetworkCheck.{AreFew, AreParts, IsFirstPassed};
ghost use Rattle.interconnection.specs.NetworkFault.{IsFirstNetworkFault};

use crate::{MAX_KINDS, MAX_PROCESSES, MAX_ROLES, NetworkFault, Process};
use pair_structure::Role;

/// The first fault of roles, kinds and processes. Linear in their numbers; takes no memory.
pub(crate) fn part_fault(
    roles: &[Role],
    ends: &[(u8, u8)],
    processes: &[Process],
) -> Option<NetworkFault>
    ensures { MatchOption result (AreParts roles.now ends.now processes.now)
        (λ fault. (edges : List Edge) → IsFirstNetworkFault roles.now ends.now processes.now edges fault) }
{
    if let Some(limit) = passed_limit(roles.len(), ends.len(), processes.len()) {
        return Some(NetworkFault::TooMany { limit });
    }
    if let Some(kind) = first_end_outside(roles.len(), ends) {
        return Some(NetworkFault::EndRange { kind: kind as u8 });
    }
    if let Some(k) = first_role_outside(roles.len(), processes) {
        return Some(NetworkFault::ProcessRole { process: k as u32 });
    }
    if let Some(k) = first_start_outside(roles, processes) {
        return Some(NetworkFault::ProcessStart { process: k as u32 });
    }
    None
}

fn passed_limit(roles: usize, kinds: usize, processes: usize) -> Option<u32>
    ensures { MatchOption result (AreFew roles kinds processes) (IsFirstPassed roles kinds processes) }
{
    if roles > MAX_ROLES {
        return Some(MAX_ROLES as u32);
    }
    if kinds > MAX_KINDS {
        return Some(MAX_KINDS as u32);
    }
    if processes > MAX_PROCESSES {
        return Some(MAX_PROCESSES as u32);
    }
    None
}

fn first_end_outside(roles: usize, ends: &[(u8, u8)]) -> Option<usize>
    ensures { IsFirstFailing (λ kind. ((ends_of ends.now kind).0 < roles) × ((ends_of ends.now kind).1 < roles)) (length ends.now) result }
{
    for (kind, pair) in ends.iter().enumerate() {
        if pair.0 as usize >= roles || pair.1 as usize >= roles {
            return Some(kind);
        }
    }
    None
}

fn first_role_outside(roles: usize, processes: &[Process]) -> Option<usize>
    ensures { IsFirstFailing (λ k. role_of processes.now k < roles) (length processes.now) result }
{
    for (k, process) in processes.iter().enumerate() {
        if process.role as usize >= roles {
            return Some(k);
        }
    }
    None
}

fn first_start_outside(roles: &[Role], processes: &[Process]) -> Option<usize>
    requires { (k : ℕ) → k < length processes.now → role_of processes.now k < length roles.now }
    ensures { IsFirstFailing (λ k. BeginsInStart roles.now (process_at processes.now k)) (length processes.now) result }
{
    for (k, process) in processes.iter().enumerate() {
        if !begins_in_start(roles, process) {
            return Some(k);
        }
    }
    None
}

fn begins_in_start(roles: &[Role], process: &Process) -> bool
    requires { HasRole roles.now process.now }
    ensures { IsTrue result ↔ BeginsInStart roles.now process.now }
{
    roles[process.role as usize]
        .starts()
        .contains(&process.start)
}
