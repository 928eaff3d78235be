ghost use Rattle.std.specs.Prelude.{◌≡◌, ◌↔◌, ◌<◌, ◌∷◌, [], ◌^◌, ℕ, List, IfNone, IfSome, IsTrue, codes, decimal};
ghost use Rattle.std.specs.Option.{option_copied};
ghost use Rattle.strict_text.specs.View.{line_of};
ghost use Rattle.strict_text.specs.Words.{words_behind, words_of};
ghost use Rattle.firing_journal.specs.Said.{Said, Says, SaysWords};
ghost use Rattle.firing_journal.specs.inside.View.{said};

use strict_text::{Line, cut_word, number};

/// What a line of a journal says.
#[derive(Clone, Copy, Debug, PartialEq, Eq)]
pub(crate) enum Item {
    Head,
    Firing {
        number: u64,
        caller: u64,
        process: u64,
        arc: u64,
        pick: u64,
    },
    Done,
}

/// What the line says, if it is one of a journal.
pub(crate) fn item_of(line: Line<'_>) -> Option<Item>
    ensures some { IfSome result (λ item. Says (line_of line.entry) (said item)) }
    ensures none { IfNone result ((x : Said) → Says (line_of line.entry) x → ⊥) }
{
    if !line.is_ended {
        return None;
    }
    said_by(line.bytes)
}

fn said_by(bytes: &[u8]) -> Option<Item>
    ensures some { IfSome result (λ item. SaysWords (words_of bytes.now) (said item)) }
    ensures none { IfNone result ((x : Said) → SaysWords (words_of bytes.now) x → ⊥) }
{
    if is_done(bytes) {
        return Some(Item::Done);
    }
    if is_head(bytes) {
        return Some(Item::Head);
    }
    let (word, rest) = cut_word(bytes);
    if !begins_entry(word) {
        return None;
    }
    firing(rest)
}

fn is_done(bytes: &[u8]) -> bool
    ensures { IsTrue result ↔ (bytes.now ≡ codes "done") }
{
    bytes == b"done".as_slice()
}

/// Whether the bytes are the words of the head.
pub(crate) fn is_head(bytes: &[u8]) -> bool
    ensures { IsTrue result ↔ (bytes.now ≡ codes "journal 1") }
{
    bytes == b"journal 1".as_slice()
}

fn begins_entry(word: &[u8]) -> bool
    ensures { IsTrue result ↔ (word.now ≡ codes "entry") }
{
    word == b"entry".as_slice()
}

/// The firing that the words behind `entry` say.
fn firing(rest: Option<&[u8]>) -> Option<Item>
    ensures some { IfSome result (λ item. SaysWords (codes "entry" ∷ words_behind (option_copied rest.entry)) (said item)) }
    ensures none { IfNone result ((x : Said) → SaysWords (codes "entry" ∷ words_behind (option_copied rest.entry)) x → ⊥) }
{
    let (number, rest) = number_word(rest)?;
    let (caller, rest) = number_word(rest)?;
    let (process, rest) = number_word(rest)?;
    let (arc, rest) = number_word(rest)?;
    let (pick, rest) = number_word(rest)?;
    match rest {
        Some(_) => None,
        None => Some(Item::Firing {
            number,
            caller,
            process,
            arc,
            pick,
        }),
    }
}

/// The number that the next word writes, and what stands behind the word.
fn number_word(rest: Option<&[u8]>) -> Option<(u64, Option<&[u8]>)>
    ensures some { IfSome result (λ x. words_behind (option_copied rest.entry) ≡ decimal x.0 ∷ words_behind (option_copied x.1)) }
    ensures none { IfNone result ((n : ℕ) (more : List (List ℕ)) → n < 2 ^ 64 → words_behind (option_copied rest.entry) ≡ decimal n ∷ more → ⊥) }
{
    let (word, behind) = cut_word(rest?);
    Some((number(word)?, behind))
}
