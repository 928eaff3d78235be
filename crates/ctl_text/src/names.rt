ghost use Rattle.std.specs.Prelude.{◌≡◌, ◌↔◌, ◌<◌, ◌≤◌, IsTrue, IfSome, IfNone, IfOk, Contains, length, position};
ghost use Rattle.std.specs.Str.{bytes_eq};
ghost use Rattle.pair_structure.specs.Name.{IsName};
ghost use Rattle.ctl_text.specs.Value.{role_names, kind_names, process_names, number_in, role_named};

use ctl_form::PairSpec;
use interconnection::Processes;
use pair_structure::{Name, NameFault, Role};
use std::alloc::{AllocError, Global};

/// The name that the bytes spell.
pub(crate) fn name_of(alloc: Global, bytes: &[u8]) -> Result<Name, AllocError>
    requires { IsName bytes.now }
    ensures { IfOk result (λ name. name ≡ bytes.now) }
{
    match std::str::from_utf8(bytes) {
        Ok(text) => match Name::make(alloc, text) {
            Ok(name) => Ok(name),
            Err(NameFault::Spelling) => unreachable!(),
            Err(NameFault::Memory) => Err(AllocError),
        },
        Err(_) => unreachable!(),
    }
}

/// Whether a local state has this name.
pub(crate) fn has_local(names: &[Name], name: &[u8]) -> bool
    ensures { IsTrue result ↔ Contains names.now name.now }
{
    names.iter().any(|x| x.as_str().as_bytes() == name)
}

/// Whether a role has this name.
pub(crate) fn has_role(roles: &[Role], name: &[u8]) -> bool
    ensures { IsTrue result ↔ Contains (role_names roles.now) name.now }
{
    role_place(roles, name).is_some()
}

/// Whether a kind has this name.
pub(crate) fn has_kind(kinds: &[PairSpec], name: &[u8]) -> bool
    ensures { IsTrue result ↔ Contains (kind_names kinds.now) name.now }
{
    kind_place(kinds, name).is_some()
}

/// Whether a process has this name.
pub(crate) fn has_process(processes: &Processes, name: &[u8]) -> bool
    ensures { IsTrue result ↔ Contains (process_names processes.now) name.now }
{
    process_place(processes, name).is_some()
}

/// The role of this name.
pub(crate) fn role_named<'a>(roles: &'a [Role], name: &[u8]) -> Option<&'a Role>
    ensures there { IfSome result (λ r. Contains (role_names roles.now) name.now) }
    ensures role { IfSome result (λ r. r.now ≡ role_named roles.now name.now) }
    ensures none { IfNone result (Contains (role_names roles.now) name.now → ⊥) }
{
    if !has_role(roles, name) {
        return None;
    }
    roles.get(role_number(roles, name))
}

/// The number of the local state of this name, and 0 where there is none.
pub(crate) fn local_number(names: &[Name], name: &[u8]) -> usize
    ensures number { result ≡ number_in names.now name.now }
    ensures within { result ≤ length names.now }
{
    local_place(names, name).unwrap_or(0)
}

/// The number of the role of this name, and 0 where there is none.
pub(crate) fn role_number(roles: &[Role], name: &[u8]) -> usize
    ensures number { result ≡ number_in (role_names roles.now) name.now }
    ensures within { result ≤ length roles.now }
{
    role_place(roles, name).unwrap_or(0)
}

/// The number of the kind of this name, and 0 where there is none.
pub(crate) fn kind_number(kinds: &[PairSpec], name: &[u8]) -> usize
    ensures number { result ≡ number_in (kind_names kinds.now) name.now }
    ensures within { result ≤ length kinds.now }
{
    kind_place(kinds, name).unwrap_or(0)
}

/// The number of the process of this name, and 0 where there is none.
pub(crate) fn process_number(processes: &Processes, name: &[u8]) -> usize
    ensures number { result ≡ number_in (process_names processes.now) name.now }
    ensures within { result ≤ length processes.now }
{
    process_place(processes, name).unwrap_or(0)
}

/// The number of the local state of this name.
fn local_place(names: &[Name], name: &[u8]) -> Option<usize>
    ensures number { result ≡ position (λ x. bytes_eq x name.now) names.now }
    ensures within { IfSome result (λ n. n < length names.now) }
{
    names.iter().position(|x| x.as_str().as_bytes() == name)
}

/// The number of the role of this name.
fn role_place(roles: &[Role], name: &[u8]) -> Option<usize>
    ensures number { result ≡ position (λ x. bytes_eq x name.now) (role_names roles.now) }
    ensures within { IfSome result (λ n. n < length roles.now) }
{
    find_role(roles, name)
}

fn find_role(roles: &[Role], name: &[u8]) -> Option<usize>
    ensures number { result ≡ position (λ r. bytes_eq r.name name.now) roles.now }
    ensures within { IfSome result (λ n. n < length roles.now) }
{
    roles
        .iter()
        .position(|role| role.name().as_str().as_bytes() == name)
}

/// The number of the kind of this name.
fn kind_place(kinds: &[PairSpec], name: &[u8]) -> Option<usize>
    ensures number { result ≡ position (λ x. bytes_eq x name.now) (kind_names kinds.now) }
    ensures within { IfSome result (λ n. n < length kinds.now) }
{
    find_kind(kinds, name)
}

fn find_kind(kinds: &[PairSpec], name: &[u8]) -> Option<usize>
    ensures number { result ≡ position (λ k. bytes_eq k.name name.now) kinds.now }
    ensures within { IfSome result (λ n. n < length kinds.now) }
{
    kinds
        .iter()
        .position(|kind| kind.name.as_str().as_bytes() == name)
}

/// The number of the process of this name.
fn process_place(processes: &Processes, name: &[u8]) -> Option<usize>
    ensures number { result ≡ position (λ x. bytes_eq x name.now) (process_names processes.now) }
    ensures within { IfSome result (λ n. n < length processes.now) }
{
    processes.find(name)
}
