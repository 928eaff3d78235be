ghost use Rattle.std.specs.Prelude.{◌≡◌, ◌↔◌, ◌<◌, ◌≤◌, ℕ, IsTrue, IfSome, IfNone, Contains, length};
ghost use Rattle.ctl_text.specs.Value.{role_names, kind_names, process_names, number_in, process_at, kind_at};
ghost use Rattle.text_cause.specs.Cause.{IsLowest, IsFree};
ghost use Rattle.ctl_text.specs.Format.{most_neighbours};
ghost use Rattle.ctl_text.specs.Cause.{IsCrowded, IsFirstCrowded, AreOfKind};
ghost use Rattle.ctl_text.specs.inside.LineCause.{NameStands, KindStands, JoinStands, EdgeStands};

use crate::format::most_neighbours;
use crate::names::{has_kind, has_process, has_role, kind_number, process_number};
use crate::place::Reader;
use ctl_form::PairSpec;
use interconnection::{Edges, MAX_KINDS, MAX_PROCESSES, Process};
use pair_structure::Role;
use text_cause::TextCause;

/// What stands against a kind of this name over these roles.
pub(crate) fn kind_cause(
    roles: &[Role],
    kinds: &[PairSpec],
    name: &[u8],
    a: &[u8],
    b: &[u8],
) -> Option<TextCause>
    ensures some { IfSome result (IsLowest (KindStands roles.now kinds.now name.now a.now b.now)) }
    ensures none { IfNone result (IsFree (KindStands roles.now kinds.now name.now a.now b.now)) }
{
    if !has_role(roles, a) {
        return Some(TextCause::UnknownName);
    }
    if !has_role(roles, b) {
        return Some(TextCause::UnknownName);
    }
    kind_name_cause(kinds, name)
}

fn kind_name_cause(kinds: &[PairSpec], name: &[u8]) -> Option<TextCause>
    ensures some { IfSome result (IsLowest (NameStands (kind_names kinds.now) MAX_KINDS name.now)) }
    ensures none { IfNone result (IsFree (NameStands (kind_names kinds.now) MAX_KINDS name.now)) }
{
    if has_kind(kinds, name) {
        return Some(TextCause::Twice);
    }
    if kinds.len() >= MAX_KINDS {
        return Some(TextCause::TooMany {
            limit: MAX_KINDS as u32,
        });
    }
    None
}

/// What stands against an edge of this kind between these processes.
pub(crate) fn edge_cause(reader: &Reader, p: &[u8], q: &[u8], kind: &[u8]) -> Option<TextCause>
    requires { length reader.now.processes ≤ MAX_PROCESSES }
    ensures some { IfSome result (IsLowest (EdgeStands (most_neighbours reader.now.format) reader.now.processes reader.now.pairs.kinds reader.now.edges p.now q.now kind.now)) }
    ensures none { IfNone result (IsFree (EdgeStands (most_neighbours reader.now.format) reader.now.processes reader.now.pairs.kinds reader.now.edges p.now q.now kind.now)) }
{
    let processes = &reader.processes;
    let kinds = reader.pairs.kinds();
    if !has_process(processes, p) {
        return Some(TextCause::UnknownName);
    }
    if !has_process(processes, q) {
        return Some(TextCause::UnknownName);
    }
    if !has_kind(kinds, kind) {
        return Some(TextCause::UnknownName);
    }
    let p = process_number(processes, p) as u32;
    let q = process_number(processes, q) as u32;
    let kind = kind_number(kinds, kind);
    join_cause(reader, p, q, kind)
}

fn join_cause(reader: &Reader, p: u32, q: u32, kind: usize) -> Option<TextCause>
    ensures some { IfSome result (IsLowest (JoinStands (most_neighbours reader.now.format) reader.now.processes reader.now.pairs.kinds reader.now.edges p q kind)) }
    ensures none { IfNone result (IsFree (JoinStands (most_neighbours reader.now.format) reader.now.processes reader.now.pairs.kinds reader.now.edges p q kind)) }
{
    if p == q {
        return Some(TextCause::SelfEdge);
    }
    if reader.edges.are_joined(p, q) {
        return Some(TextCause::EdgeTwice);
    }
    if let Some(process) = crowded(&reader.edges, most_neighbours(reader.format), p, q) {
        return Some(TextCause::DegreeOver { process });
    }
    if !are_of_kind(
        reader.processes.as_slice(),
        reader.pairs.kinds(),
        p,
        q,
        kind,
    ) {
        return Some(TextCause::RoleMismatch);
    }
    None
}

/// Of the two processes the lower one that has so many edges.
fn crowded(edges: &Edges, most: usize, p: u32, q: u32) -> Option<u32>
    ensures some { IfSome result (IsFirstCrowded most edges.now p q) }
    ensures none { IfNone result ((k : ℕ) → IsCrowded most edges.now p q k → ⊥) }
{
    if p <= q {
        first_crowded(edges, most, p, q)
    } else {
        first_crowded(edges, most, q, p)
    }
}

fn first_crowded(edges: &Edges, most: usize, low: u32, high: u32) -> Option<u32>
    requires { low ≤ high }
    ensures some { IfSome result (IsFirstCrowded most edges.now low high) }
    ensures none { IfNone result ((k : ℕ) → IsCrowded most edges.now low high k → ⊥) }
{
    if edges.is_full(low, most) {
        return Some(low);
    }
    if edges.is_full(high, most) {
        return Some(high);
    }
    None
}

/// Whether the processes have the roles of the kind's sides.
fn are_of_kind(processes: &[Process], kinds: &[PairSpec], p: u32, q: u32, kind: usize) -> bool
    ensures { IsTrue result ↔ AreOfKind processes.now kinds.now p q kind }
{
    role_of(processes, p) == side_a(kinds, kind) && role_of(processes, q) == side_b(kinds, kind)
}

fn role_of(processes: &[Process], k: u32) -> u8
    ensures { result ≡ (process_at processes.now k).role }
{
    match processes.get(k as usize) {
        Some(process) => process.role,
        None => 0,
    }
}

fn side_a(kinds: &[PairSpec], kind: usize) -> u8
    ensures { result ≡ (kind_at kinds.now kind).role_a }
{
    match kinds.get(kind) {
        Some(kind) => kind.role_a,
        None => 0,
    }
}

fn side_b(kinds: &[PairSpec], kind: usize) -> u8
    ensures { result ≡ (kind_at kinds.now kind).role_b }
{
    match kinds.get(kind) {
        Some(kind) => kind.role_b,
        None => 0,
    }
}
