ghost use Rattle.std.specs.Prelude.{◌≡◌, IfSome, IfNone, ◌∷◌, [], decimal};
ghost use Rattle.pair_structure.specs.declared.side.Move.{Move as MoveValue};
ghost use Rattle.pair_structure.specs.declared.side.Side.{Side as SideValue};
ghost use Rattle.strict_text.specs.Words.{words_of};
ghost use Rattle.solution_text.specs.Item.{Said, Says, side_word, IsMoveText};
ghost use Rattle.solution_text.specs.inside.View.{said};

use pair_structure::{Move, Side, is_name};
use strict_text::{cut_word, number};

/// What a line says.
#[derive(Clone, Copy, Debug)]
pub(crate) enum Item<'a> {
    Head,
    Kind(&'a [u8]),
    State(&'a [u8], &'a [u8]),
    Step(Move),
    End,
    Done,
}

/// What the line says, if its words are those of a line. Linear in the line.
pub(crate) fn said_by(line: &[u8]) -> Option<Item<'_>>
    ensures some { IfSome result (λ item. Says (words_of line.now) (said item)) }
    ensures none { IfNone result ((item : Said) → Says (words_of line.now) item → ⊥) }
{
    let (word, rest) = cut_word(line);
    let Some(rest) = rest else {
        return one(word);
    };
    let (a, rest) = cut_word(rest);
    let Some(rest) = rest else {
        return two(word, a);
    };
    let (b, rest) = cut_word(rest);
    let Some(rest) = rest else {
        return three(word, a, b);
    };
    let (c, rest) = cut_word(rest);
    match rest {
        None => four(word, a, b, c),
        Some(_) => None,
    }
}

fn one<'a>(word: &[u8]) -> Option<Item<'a>>
    ensures some { IfSome result (λ item. Says (word.now ∷ []) (said item)) }
    ensures none { IfNone result ((item : Said) → Says (word.now ∷ []) item → ⊥) }
{
    if word == b"end".as_slice() {
        return Some(Item::End);
    }
    if word == b"done".as_slice() {
        return Some(Item::Done);
    }
    None
}

fn two<'a>(word: &[u8], a: &'a [u8]) -> Option<Item<'a>>
    ensures some { IfSome result (λ item. Says (word.now ∷ a.now ∷ []) (said item)) }
    ensures none { IfNone result ((item : Said) → Says (word.now ∷ a.now ∷ []) item → ⊥) }
{
    if word == b"kind".as_slice() && is_name(a) {
        return Some(Item::Kind(a));
    }
    if word == b"solution".as_slice() && a == b"1".as_slice() {
        return Some(Item::Head);
    }
    None
}

fn three<'a>(word: &[u8], a: &'a [u8], b: &'a [u8]) -> Option<Item<'a>>
    ensures some { IfSome result (λ item. Says (word.now ∷ a.now ∷ b.now ∷ []) (said item)) }
    ensures none { IfNone result ((item : Said) → Says (word.now ∷ a.now ∷ b.now ∷ []) item → ⊥) }
{
    if word == b"state".as_slice() && is_name(a) && is_name(b) {
        return Some(Item::State(a, b));
    }
    None
}

fn four<'a>(word: &[u8], a: &[u8], b: &[u8], c: &[u8]) -> Option<Item<'a>>
    ensures some { IfSome result (λ item. Says (word.now ∷ a.now ∷ b.now ∷ c.now ∷ []) (said item)) }
    ensures none { IfNone result ((item : Said) → Says (word.now ∷ a.now ∷ b.now ∷ c.now ∷ []) item → ⊥) }
{
    if word != b"move".as_slice() {
        return None;
    }
    match move_of(a, b, c) {
        Some(m) => Some(Item::Step(m)),
        None => None,
    }
}

/// The move whose end, side and other end these are.
fn move_of(from: &[u8], side: &[u8], to: &[u8]) -> Option<Move>
    ensures some { IfSome result (IsMoveText from.now side.now to.now) }
    ensures none { IfNone result ((move : MoveValue) → IsMoveText from.now side.now to.now move → ⊥) }
{
    let from = number(from)?;
    let side = side_of(side)?;
    let to = number(to)?;
    Some(Move { from, side, to })
}

fn side_of(word: &[u8]) -> Option<Side>
    ensures some { IfSome result (λ side. word.now ≡ side_word side) }
    ensures none { IfNone result ((side : SideValue) → word.now ≡ side_word side → ⊥) }
{
    match word {
        b"a" => Some(Side::A),
        b"b" => Some(Side::B),
        _ => None,
    }
}
