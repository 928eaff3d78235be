ghost use Rattle.std.specs.Prelude.{◌≡◌, ◌↔◌, ◌<◌, All, IsTrue, IfSome, IfNone, codes, length, map, ◌∷◌, [], Some};
ghost use Rattle.std.specs.Str.{bytes_eq};
ghost use Rattle.std.specs.Option.{option_copied, option_map};
ghost use Rattle.pair_structure.specs.Name.{IsName};
ghost use Rattle.ctl_text.specs.Item.{Said, IsSpelled, Says};
ghost use Rattle.ctl_text.specs.inside.ItemReading.{item_at, few_at, one_at, two_at, three_at, four_at};
ghost use Rattle.ctl_text.specs.Lines.{IsRequire};
ghost use Rattle.ctl_text.specs.inside.View.{said};

use crate::format::Format;
use pair_structure::is_name;

/// What a line says that is not passed over and requires no clause.
#[derive(Clone, Copy, Debug)]
pub(crate) enum Item<'a> {
    Head(Format),
    Role(&'a [u8]),
    Local(&'a [u8]),
    Start(&'a [u8]),
    Set {
        name: &'a [u8],
        members: &'a [&'a [u8]],
    },
    Arc {
        from: &'a [u8],
        to: &'a [u8],
        free: bool,
    },
    Kind {
        name: &'a [u8],
        a: &'a [u8],
        b: &'a [u8],
    },
    End,
    Process {
        name: &'a [u8],
        role: &'a [u8],
        start: Option<&'a [u8]>,
    },
    Edge {
        a: &'a [u8],
        b: &'a [u8],
        kind: &'a [u8],
    },
    Done,
}

/// What the words say, if they are a line; they require no clause.
pub(crate) fn said_by<'a>(words: &'a [&'a [u8]]) -> Option<Item<'a>>
    requires { IsRequire (map (λ w. w.now) words.now) → ⊥ }
    ensures some { IfSome result (λ item. Says (map (λ w. w.now) words.now) (said item)) }
    ensures none { IfNone result ((item : Said) → Says (map (λ w. w.now) words.now) item → ⊥) }
{
    match item_of(words) {
        Some(item) => { if is_spelled(item) { Some(item) } else { None } }
        None => None,
    }
}

/// What the words say, whatever the spelling of their names.
fn item_of<'a>(words: &'a [&'a [u8]]) -> Option<Item<'a>>
    ensures { option_map said result ≡ item_at (map (λ w. w.now) words.now) }
{
    match words {
        [word, name, members @ ..] => {
            if is_set(word) {
                Some(Item::Set { name, members })
            } else {
                few(words)
            }
        }
        _ => few(words),
    }
}

fn is_set(word: &[u8]) -> bool
    ensures { result ≡ bytes_eq word.now (codes "set") }
{
    word == b"set".as_slice()
}

/// What at most four words say that are no set.
fn few<'a>(words: &[&'a [u8]]) -> Option<Item<'a>>
    ensures { option_map said result ≡ few_at (map (λ w. w.now) words.now) }
{
    match words {
        [word] => one(word),
        [word, a] => two(word, a),
        [word, a, b] => three(word, a, b),
        [word, a, b, c] => four(word, a, b, c),
        _ => None,
    }
}

fn one<'a>(word: &[u8]) -> Option<Item<'a>>
    ensures { option_map said result ≡ one_at word.now }
{
    if word == b"end".as_slice() {
        return Some(Item::End);
    }
    if word == b"done".as_slice() {
        return Some(Item::Done);
    }
    None
}

fn two<'a>(word: &[u8], a: &'a [u8]) -> Option<Item<'a>>
    ensures { option_map said result ≡ two_at word.now a.now }
{
    if word == b"pairs".as_slice() && a == b"1".as_slice() {
        return Some(Item::Head(Format::First));
    }
    if word == b"pairs".as_slice() && a == b"2".as_slice() {
        return Some(Item::Head(Format::Second));
    }
    if word == b"role".as_slice() {
        return Some(Item::Role(a));
    }
    if word == b"local".as_slice() {
        return Some(Item::Local(a));
    }
    if word == b"start".as_slice() {
        return Some(Item::Start(a));
    }
    None
}

fn three<'a>(word: &[u8], a: &'a [u8], b: &'a [u8]) -> Option<Item<'a>>
    ensures { option_map said result ≡ three_at word.now a.now b.now }
{
    if word == b"arc".as_slice() {
        let free = false;
        return Some(Item::Arc {
            from: a,
            to: b,
            free,
        });
    }
    if word == b"process".as_slice() {
        return Some(Item::Process {
            name: a,
            role: b,
            start: None,
        });
    }
    None
}

fn four<'a>(word: &[u8], a: &'a [u8], b: &'a [u8], c: &'a [u8]) -> Option<Item<'a>>
    ensures { option_map said result ≡ four_at word.now a.now b.now c.now }
{
    if word == b"arc".as_slice() && c == b"free".as_slice() {
        let free = true;
        return Some(Item::Arc {
            from: a,
            to: b,
            free,
        });
    }
    if word == b"kind".as_slice() {
        return Some(Item::Kind {
            name: a,
            a: b,
            b: c,
        });
    }
    if word == b"process".as_slice() {
        return Some(Item::Process {
            name: a,
            role: b,
            start: Some(c),
        });
    }
    if word == b"edge".as_slice() {
        return Some(Item::Edge { a, b, kind: c });
    }
    None
}

/// Whether each name of the line is spelled as a name.
fn is_spelled(item: Item<'_>) -> bool
    ensures { IsTrue result ↔ IsSpelled (said item.entry) }
{
    match item {
        Item::Head(_) | Item::End | Item::Done => true,
        Item::Role(name) | Item::Local(name) | Item::Start(name) => is_name(name),
        Item::Set { name, members } => {
            is_name(name) && !members.is_empty() && are_names(members)
        }
        Item::Arc { from, to, .. } => is_name(from) && is_name(to),
        Item::Kind { name, a, b } => is_name(name) && is_name(a) && is_name(b),
        Item::Process { name, role, start } => {
            is_name(name) && is_name(role) && is_spelled_start(start)
        }
        Item::Edge { a, b, kind } => is_name(a) && is_name(b) && is_name(kind),
    }
}

/// Whether each of these is spelled as a name.
fn are_names(words: &[&[u8]]) -> bool
    ensures { IsTrue result ↔ All IsName (map (λ w. w.now) words.now) }
{
    all_names(words)
}

fn all_names(words: &[&[u8]]) -> bool
    ensures { IsTrue result ↔ All (λ w. IsName w.now) words.now }
{
    words.iter().all(|word| is_name(word))
}

/// Whether the name is spelled as one, if there is one.
fn is_spelled_start(start: Option<&[u8]>) -> bool
    ensures { IsTrue result ↔ IfSome (option_copied start.entry) IsName }
{
    match start {
        None => true,
        Some(name) => is_name(name),
    }
}
