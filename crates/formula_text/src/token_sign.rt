ghost use Rattle.std.specs.Prelude.{◌≡◌, ◌≤◌, ◌<◌, true, false, ◌++◌, length, map, position, IfSome, IfOk, OnOk};
ghost use Rattle.std.specs.Option.{option_map};
ghost use Rattle.std.specs.Str.{bytes_eq};
ghost use Rattle.formula_text.specs.Sets.{joined_signs, member_signs, set_signs, token_signs, signs_over};
ghost use Rattle.formula_text.specs.Sign.{sign_of, word_sign, said_in, path_words, words, marks, number_of, behind_dot, atom_sign};
ghost use Rattle.formula_text.specs.declared.sign.Sign.TheVariants.{Other};

use crate::local_set::{LocalSet, members_at};
use crate::sign::{Leaf, Mark, Prefix, Sign};
use pair_structure::{MAX_LOCALS, Memory, Name, Side, is_name};
use std::alloc::{AllocError, Global};

/// What these tokens say, over what the atoms of the two sides may name.
pub(crate) fn signs_over(
    alloc: Global,
    a: &[Name],
    a_sets: &[LocalSet],
    b: &[Name],
    b_sets: &[LocalSet],
    tokens: &[&[u8]],
) -> Result<Vec<Sign>, Memory>
    requires few_a { length a.now ≤ MAX_LOCALS }
    requires few_b { length b.now ≤ MAX_LOCALS }
    ensures { IfOk result (λ signs. signs.items ≡ signs_over (record { locals = a.now; sets = a_sets.now }) (record { locals = b.now; sets = b_sets.now }) (map (λ t. t.now) tokens.now)) }
{
    let mut signs = Vec::with_capacity(alloc, tokens.len())?;
    for token in tokens {
        push_token(a, a_sets, b, b_sets, token, &mut signs)?;
    }
    Ok(signs)
}

/// Appends what the token says.
fn push_token(
    a: &[Name],
    a_sets: &[LocalSet],
    b: &[Name],
    b_sets: &[LocalSet],
    token: &[u8],
    into: &mut Vec<Sign>,
) -> Result<(), AllocError>
    requires few_a { length a.now ≤ MAX_LOCALS }
    requires few_b { length b.now ≤ MAX_LOCALS }
    ensures { OnOk result (into.new.items ≡ into.old.items ++ token_signs (record { locals = a.now; sets = a_sets.now }) (record { locals = b.now; sets = b_sets.now }) token.now) }
{
    if let Some(members) = members_at(b'a', a_sets, token) {
        return push_set(Side::A, a, members, into);
    }
    if let Some(members) = members_at(b'b', b_sets, token) {
        return push_set(Side::B, b, members, into);
    }
    into.push(sign_of(a, b, token))?;
    Ok(())
}

/// Appends the disjunction of the members' atoms, in round parentheses.
fn push_set(
    side: Side,
    names: &[Name],
    members: &[Name],
    into: &mut Vec<Sign>,
) -> Result<(), AllocError>
    requires { length names.now ≤ MAX_LOCALS }
    ensures { OnOk result (into.new.items ≡ into.old.items ++ set_signs side names.now members.now) }
{
    into.push(Sign::Open)?;
    push_members(side, names, members, into)?;
    into.push(Sign::Behind(Mark::Close))?;
    Ok(())
}

/// Appends the members' atoms, with a `|` between two.
fn push_members(
    side: Side,
    names: &[Name],
    members: &[Name],
    into: &mut Vec<Sign>,
) -> Result<(), AllocError>
    requires { length names.now ≤ MAX_LOCALS }
    ensures { OnOk result (into.new.items ≡ into.old.items ++ member_signs side names.now members.now) }
{
    let [first, more @ ..] = members else {
        return Ok(());
    };
    into.push(atom_sign(side, names, first.as_str().as_bytes()))?;
    push_joined(side, names, more, into)?;
    Ok(())
}

/// Appends the members' atoms, each with a `|` before it.
fn push_joined(
    side: Side,
    names: &[Name],
    members: &[Name],
    into: &mut Vec<Sign>,
) -> Result<(), AllocError>
    requires { length names.now ≤ MAX_LOCALS }
    ensures { OnOk result (into.new.items ≡ into.old.items ++ joined_signs side names.now members.now) }
{
    for member in members {
        into.push(Sign::Behind(Mark::Or))?;
        into.push(atom_sign(side, names, member.as_str().as_bytes()))?;
    }
    Ok(())
}

/// What this token says, where it names no set.
fn sign_of(a: &[Name], b: &[Name], token: &[u8]) -> Sign
    requires few_a { length a.now ≤ MAX_LOCALS }
    requires few_b { length b.now ≤ MAX_LOCALS }
    ensures { result ≡ sign_of a.now b.now token.now }
{
    if let Some(name) = behind_dot(b'a', token) {
        return atom_sign(Side::A, a, name);
    }
    if let Some(name) = behind_dot(b'b', token) {
        return atom_sign(Side::B, b, name);
    }
    word_sign(token)
}

/// What stands behind this letter and a dot.
pub(crate) fn behind_dot(letter: u8, token: &[u8]) -> Option<&[u8]>
    ensures { option_map (λ name. name.now) result ≡ behind_dot letter token.now }
{
    match token {
        [first, dot, name @ ..] => {
            if *first == letter && *dot == b'.' {
                Some(name)
            } else {
                None
            }
        }
        _ => None,
    }
}

fn atom_sign(side: Side, names: &[Name], name: &[u8]) -> Sign
    requires { length names.now ≤ MAX_LOCALS }
    ensures { result ≡ atom_sign side names.now name.now }
{
    if !is_name(name) {
        return Sign::Other;
    }
    match number_of(names, name) {
        Some(local) => Sign::Alone(Leaf::At {
            side,
            local: Some(local as u8),
        }),
        None => Sign::Alone(Leaf::At { side, local: None }),
    }
}

/// The number of a name among these.
fn number_of(names: &[Name], name: &[u8]) -> Option<usize>
    ensures number { result ≡ number_of names.now name.now }
    ensures within { IfSome result (λ n. n < length names.now) }
{
    names.iter().position(|x| x.as_str().as_bytes() == name)
}

fn word_sign(token: &[u8]) -> Sign
    ensures { result ≡ word_sign token.now }
{
    match token {
        [] => Sign::Other,
        [first, rest @ ..] => {
            if *first == b'A' {
                path_sign(true, rest)
            } else if *first == b'E' {
                path_sign(false, rest)
            } else {
                plain_sign(token)
            }
        }
    }
}

fn path_sign(all: bool, rest: &[u8]) -> Sign
    ensures { result ≡ said_in (path_words all) Other rest.now }
{
    if rest == b"".as_slice() {
        Sign::Path { all }
    } else if rest == b"X".as_slice() {
        Sign::Before(Prefix::Next { all, side: None })
    } else if rest == b"Xa".as_slice() {
        Sign::Before(Prefix::Next {
            all,
            side: Some(Side::A),
        })
    } else if rest == b"Xb".as_slice() {
        Sign::Before(Prefix::Next {
            all,
            side: Some(Side::B),
        })
    } else if rest == b"G".as_slice() {
        Sign::Before(Prefix::Always { all })
    } else if rest == b"F".as_slice() {
        Sign::Before(Prefix::Sometime { all })
    } else {
        Sign::Other
    }
}

fn plain_sign(token: &[u8]) -> Sign
    ensures { result ≡ said_in words (said_in marks Other token.now) token.now }
{
    if token == b"true".as_slice() {
        Sign::Alone(Leaf::Yes)
    } else if token == b"false".as_slice() {
        Sign::Alone(Leaf::No)
    } else if token == b"!".as_slice() {
        Sign::Before(Prefix::Not)
    } else if token == b"(".as_slice() {
        Sign::Open
    } else if token == b"U".as_slice() {
        Sign::Until { weak: false }
    } else if token == b"W".as_slice() {
        Sign::Until { weak: true }
    } else {
        mark_sign(token)
    }
}

fn mark_sign(token: &[u8]) -> Sign
    ensures { result ≡ said_in marks Other token.now }
{
    if token == b"&".as_slice() {
        Sign::Behind(Mark::And)
    } else if token == b"|".as_slice() {
        Sign::Behind(Mark::Or)
    } else if token == b"->".as_slice() {
        Sign::Behind(Mark::Arrow)
    } else if token == b")".as_slice() {
        Sign::Behind(Mark::Close)
    } else if token == b"[".as_slice() {
        Sign::Behind(Mark::Left)
    } else if token == b"]".as_slice() {
        Sign::Behind(Mark::Right)
    } else {
        Sign::Other
    }
}
