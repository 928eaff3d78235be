//! Structures, spelled as the labels of their states, by the places of the local states, and then their moves: `00 10 | 0a1 1a0`.

ghost use Rattle.std.specs.Prelude.{IfOk};
ghost use Rattle.pair_structure.specs.Structure.{IsOver};

use crate::words::cut;
use pair_structure::{Move, PairStructure, Role, Side};
use std::alloc::Global;
use std::test::Fail;

/// The structure that is spelled so, over these roles.
pub fn structure(alloc: Global, a: &Role, b: &Role, spelled: &str) -> Result<PairStructure, Fail>
    ensures { IfOk result (IsOver a.now b.now) }
{
    let (states, steps) = cut(spelled, "|");
    let states = labels(alloc, states)?;
    let moves = moves(alloc, steps)?;
    let m = PairStructure::make(alloc, a, b, &states, &moves)?;
    Ok(m)
}

/// The labels that are spelled so.
pub fn labels(alloc: Global, spelled: &str) -> Result<Vec<(u8, u8)>, Fail> {
    let mut labels = Vec::new(alloc);
    for word in spelled.split_whitespace() {
        labels.push((digit(word, 0), digit(word, 1)))?;
    }
    Ok(labels)
}

/// The moves that are spelled so.
pub fn moves(alloc: Global, spelled: &str) -> Result<Vec<Move>, Fail> {
    let mut moves = Vec::new(alloc);
    for word in spelled.split_whitespace() {
        moves.push(Move {
            from: digit(word, 0) as u64,
            side: side(sign(word, 1)),
            to: digit(word, 2) as u64,
        })?;
    }
    Ok(moves)
}

fn digit(word: &str, place: usize) -> u8 {
    sign(word, place).saturating_sub(b'0')
}

fn sign(word: &str, place: usize) -> u8 {
    word.as_bytes().get(place).copied().unwrap_or(b' ')
}

fn side(sign: u8) -> Side {
    match sign {
        b'a' => Side::A,
        _ => Side::B,
    }
}
