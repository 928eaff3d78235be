ghost use Rattle.std.specs.Prelude.{◌≡◌, ◌↔◌, IsTrue, IfSome, IfNone, Any, Contains, map};
ghost use Rattle.text_cause.specs.Cause.{IsLowest, IsFree};
ghost use Rattle.ctl_text.specs.Cause.{IsUnknown, Repeats};
ghost use Rattle.ctl_text.specs.Value.{set_names};
ghost use Rattle.ctl_text.specs.inside.LineCause.{IsSetAgain, SetStands};

use crate::format::MAX_SETS;
use crate::names::has_local;
use formula_text::LocalSet;
use pair_structure::Name;
use text_cause::TextCause;

/// What stands against a set of this name and these members, in a role with these local states and sets.
pub(crate) fn set_cause(
    names: &[Name],
    sets: &[LocalSet],
    name: &[u8],
    members: &[&[u8]],
) -> Option<TextCause>
    ensures some { IfSome result (IsLowest (SetStands names.now sets.now name.now (map (λ m. m.now) members.now))) }
    ensures none { IfNone result (IsFree (SetStands names.now sets.now name.now (map (λ m. m.now) members.now))) }
{
    if has_unknown(names, members) {
        return Some(TextCause::UnknownName);
    }
    if is_set_again(names, sets, name, members) {
        return Some(TextCause::Twice);
    }
    if sets.len() >= MAX_SETS {
        return Some(TextCause::TooMany {
            limit: MAX_SETS as u32,
        });
    }
    None
}

/// Whether some member is none of these local states.
fn has_unknown(names: &[Name], members: &[&[u8]]) -> bool
    ensures { IsTrue result ↔ Any (IsUnknown names.now) (map (λ m. m.now) members.now) }
{
    any_unknown(names, members)
}

fn any_unknown(names: &[Name], members: &[&[u8]]) -> bool
    ensures { IsTrue result ↔ Any (λ m. IsUnknown names.now m.now) members.now }
{
    members.iter().any(|member| !has_local(names, member))
}

/// Whether the name stands above in its name space, or a member stands twice.
fn is_set_again(names: &[Name], sets: &[LocalSet], name: &[u8], members: &[&[u8]]) -> bool
    ensures { IsTrue result ↔ IsSetAgain names.now sets.now name.now (map (λ m. m.now) members.now) }
{
    has_local(names, name) || has_set(sets, name) || repeats(members)
}

/// Whether a set has this name.
fn has_set(sets: &[LocalSet], name: &[u8]) -> bool
    ensures { IsTrue result ↔ Contains (set_names sets.now) name.now }
{
    any_set(sets, name)
}

fn any_set(sets: &[LocalSet], name: &[u8]) -> bool
    ensures { IsTrue result ↔ Any (λ s. s.name ≡ name.now) sets.now }
{
    sets.iter()
        .any(|set| set.name().as_str().as_bytes() == name)
}

/// Whether a word stands behind an equal one. Linear in the words for each that stands before the first such.
fn repeats(words: &[&[u8]]) -> bool
    ensures { IsTrue result ↔ Repeats (map (λ w. w.now) words.now) }
{
    for place in 0..words.len() {
        let (_front, behind) = words.split_at(place + 1);
        if has_word(behind, words[place]) {
            return true;
        }
    }
    false
}

fn has_word(words: &[&[u8]], word: &[u8]) -> bool
    ensures { IsTrue result ↔ Contains (map (λ w. w.now) words.now) word.now }
{
    any_word(words, word)
}

fn any_word(words: &[&[u8]], word: &[u8]) -> bool
    ensures { IsTrue result ↔ Any (λ w. w.now ≡ word.now) words.now }
{
    words.iter().any(|x| *x == word)
}
