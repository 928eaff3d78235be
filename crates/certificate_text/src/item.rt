ghost use Rattle.std.specs.Prelude.{◌≡◌, ◌↔◌, ◌∷◌, [], ℕ, List, IfOk, IsTrue, MatchOption, codes};
ghost use Rattle.strict_text.specs.Words.{words_of};
ghost use Rattle.certificate_text.specs.Item.{NamedLabel, label_text};
ghost use Rattle.certificate_text.specs.inside.Saying.{AreLabels, AreNumbers, IsLabelWord, IsSaid, named, names_of};

use pair_structure::{Side, is_name};
use std::alloc::{AllocError, Global};
use strict_text::{cut_word, number};

/// A label by the name of its kind, with the centre's side.
#[derive(Clone, Copy, Debug)]
pub(crate) struct Label<'a> {
    pub kind: &'a [u8],
    pub side: Side,
}

/// What a line says.
#[derive(Debug, Drop)]
pub(crate) enum Item<'a> {
    Head,
    Star(&'a [u8], Vec<Label<'a>>),
    Member(Vec<u64>),
    End,
    Done,
}

/// What the line says, if its words are those of a line. Linear in the line; a member's states come into the list that is spare.
pub(crate) fn said_by<'a>(
    alloc: Global,
    line: &'a [u8],
    spare: Vec<u64>,
) -> Result<Option<Item<'a>>, AllocError>
    ensures { IfOk result (IsSaid (words_of line.now)) }
{
    let (word, rest) = cut_word(line);
    let Some(rest) = rest else {
        return Ok(one(alloc, word));
    };
    more(alloc, word, rest, spare)
}

/// What a line of one word says; a member without states may stand nowhere.
fn one<'a>(alloc: Global, word: &[u8]) -> Option<Item<'a>>
    ensures { IsSaid (word.now ∷ []) result }
{
    if word == b"member".as_slice() {
        return Some(Item::Member(Vec::new(alloc)));
    }
    if word == b"end".as_slice() {
        return Some(Item::End);
    }
    if word == b"done".as_slice() {
        return Some(Item::Done);
    }
    None
}

/// What a line says that has words behind the first.
fn more<'a>(
    alloc: Global,
    word: &[u8],
    rest: &'a [u8],
    spare: Vec<u64>,
) -> Result<Option<Item<'a>>, AllocError>
    ensures { IfOk result (IsSaid (word.now ∷ words_of rest.now)) }
{
    if word == b"member".as_slice() {
        return member(rest, spare);
    }
    if word == b"star".as_slice() {
        return star(alloc, rest);
    }
    Ok(head(word, rest))
}

fn head<'a>(word: &[u8], rest: &[u8]) -> Option<Item<'a>>
    requires member { word.now ≡ codes "member" → ⊥ }
    requires star { word.now ≡ codes "star" → ⊥ }
    ensures { IsSaid (word.now ∷ words_of rest.now) result }
{
    if is_certificate(word) && is_one(rest) {
        return Some(Item::Head);
    }
    None
}

fn is_certificate(word: &[u8]) -> bool
    ensures { IsTrue result ↔ (word.now ≡ codes "certificate") }
{
    word == b"certificate".as_slice()
}

/// Whether the digit 1 is the only word.
fn is_one(rest: &[u8]) -> bool
    ensures { IsTrue result ↔ (words_of rest.now ≡ codes "1" ∷ []) }
{
    is_one_text(rest)
}

fn is_one_text(rest: &[u8]) -> bool
    ensures { IsTrue result ↔ (rest.now ≡ codes "1") }
{
    rest == b"1".as_slice()
}

fn member<'a>(rest: &[u8], spare: Vec<u64>) -> Result<Option<Item<'a>>, AllocError>
    ensures { IfOk result (IsSaid (codes "member" ∷ words_of rest.now)) }
{
    match numbers(rest, spare)? {
        Some(states) => Ok(Some(Item::Member(states))),
        None => Ok(None),
    }
}

/// The numbers that these words write, if each writes one.
fn numbers(text: &[u8], spare: Vec<u64>) -> Result<Option<Vec<u64>>, AllocError>
    ensures { IfOk result (λ states. MatchOption states ((ns : List ℕ) → AreNumbers (words_of text.now) ns → ⊥) (λ states. AreNumbers (words_of text.now) states.items)) }
{
    let mut states = spare;
    states.clear();
    let mut rest = text;
    loop {
        let (word, behind) = cut_word(rest);
        let Some(n) = number(word) else {
            return Ok(None);
        };
        states.push(n)?;
        let Some(behind) = behind else {
            return Ok(Some(states));
        };
        rest = behind;
    }
}

fn star<'a>(alloc: Global, rest: &'a [u8]) -> Result<Option<Item<'a>>, AllocError>
    ensures { IfOk result (IsSaid (codes "star" ∷ words_of rest.now)) }
{
    let (role, labels) = cut_word(rest);
    let Some(labels) = labels else {
        return Ok(None);
    };
    if !is_name(role) {
        return Ok(None);
    }
    match labels_of(alloc, labels)? {
        Some(labels) => Ok(Some(Item::Star(role, labels))),
        None => Ok(None),
    }
}

/// The labels that these words write, if there are 32 at most and each writes one.
fn labels_of<'a>(alloc: Global, text: &'a [u8]) -> Result<Option<Vec<Label<'a>>>, AllocError>
    ensures { IfOk result (λ labels. MatchOption labels ((ls : List NamedLabel) → AreLabels (words_of text.now) ls → ⊥) (λ labels. AreLabels (words_of text.now) (names_of labels.items))) }
{
    let mut labels = Vec::new(alloc);
    let mut rest = text;
    while labels.len() < 32 {
        let (word, behind) = cut_word(rest);
        let Some(label) = label_of(word) else {
            return Ok(None);
        };
        labels.push(label)?;
        let Some(behind) = behind else {
            return Ok(Some(labels));
        };
        rest = behind;
    }
    Ok(None)
}

/// The label that the word writes, if it writes one.
fn label_of(word: &[u8]) -> Option<Label<'_>>
    ensures { MatchOption result ((label : NamedLabel) → IsLabelWord word.now label → ⊥) (λ label. IsLabelWord word.now (named label)) }
{
    let (kind, side) = sided(word)?;
    if !is_name(kind) {
        return None;
    }
    Some(Label { kind, side })
}

/// What stands before the dot and the side at the end.
fn sided(word: &[u8]) -> Option<(&[u8], Side)>
    ensures { MatchOption result ((label : NamedLabel) → word.now ≡ label_text label → ⊥) (λ x. word.now ≡ label_text (x.0.now, x.1)) }
{
    if let Some(kind) = word.strip_suffix(b".a".as_slice()) {
        return Some((kind, Side::A));
    }
    if let Some(kind) = word.strip_suffix(b".b".as_slice()) {
        return Some((kind, Side::B));
    }
    None
}
