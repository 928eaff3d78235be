//! The journal: the firings of all callers, each at its place.
ghost use Rattle.std.specs.Prelude.{◌≡◌, ◌≤◌, ◌<◌, ◌^◌, ℕ, List, [], ◌∷◌, length, map, vec_capacity};
ghost use Rattle.firing_words.specs.History.{Firing, Making};
ghost use Rattle.firing_words.specs.Lists.{Has};
ghost use Rattle.firing_journal.specs.Journal.{AreNumbered};
ghost use Rattle.firing_hall.specs.inside.Gathering.{AreListsOf, all_placed, makings_of, placed};
ghost use Rattle.firing_hall.specs.Reports.{log_of};

use conjunctive_compose::Wish;
use firing_journal::{Asked, Entry};
use firing_words::MAX_CALLERS;

/// Puts a firing at its place; other replies have none.
fn place_one(entries: &mut [Entry], caller: u32, item: Asked)
    requires within { (m : Making) → Has m (makings_of (item ∷ [])) → m.number < length entries.old }
    ensures { entries.new ≡ placed entries.old caller (item ∷ []) }
{
    match item {
        Asked::Fired { wish, number } => {
            let place = number as usize;
            let within = place < entries.len();
            prove!(within);
            entries[place] = Entry {
                number,
                caller,
                wish,
            };
        }
        Asked::Away { .. } => {}
        Asked::Blocked { .. } => {}
        Asked::Seen { .. } => {}
        Asked::SeenPair { .. } => {}
    }
}

fn place_all(entries: &mut [Entry], caller: u32, asked: &[Asked])
    requires within { (m : Making) → Has m (makings_of asked.now) → m.number < length entries.old }
    ensures { entries.new ≡ placed entries.old caller asked.now }
{
    for i in 0..asked.len() {
        place_one(entries, caller, asked[i]);
    }
}

fn place_lists(entries: &mut [Entry], lists: &[Vec<Asked>])
    requires callers { length lists.now ≤ MAX_CALLERS }
    requires lists { (log : List Firing) × (length log ≡ length entries.old) × AreListsOf log (map (λ v. v.items) lists.now) }
    ensures { entries.new ≡ all_placed entries.old 0 (map (λ v. v.items) lists.now) }
{
    for c in 0..lists.len() {
        place_all(entries, c as u32, lists[c].as_slice());
    }
}

/// So many entries of no matter.
fn fill(entries: &mut Vec<Entry>, count: usize)
    requires empty { entries.old.items ≡ [] }
    requires space { count ≤ vec_capacity entries.old }
    ensures { length entries.new.items ≡ count }
{
    let wish = Wish {
        process: 0,
        arc: 0,
        pick: 0,
    };
    for _ in 0..count {
        entries.push_reserved(Entry {
            number: 0,
            caller: 0,
            wish,
        });
    }
}

/// The history that these lists are of, which has so many entries.
pub(crate) fn gather(entries: &mut Vec<Entry>, lists: &[Vec<Asked>], count: usize)
    requires callers { length lists.now ≤ MAX_CALLERS }
    requires lists { (log : List Firing) × (length log ≡ count) × AreListsOf log (map (λ v. v.items) lists.now) }
    requires empty { entries.old.items ≡ [] }
    requires space { count ≤ vec_capacity entries.old }
    ensures entries { (log : List Firing) → length log ≡ count → AreListsOf log (map (λ v. v.items) lists.now) → (log_of entries.new.items ≡ log) × AreNumbered entries.new.items }
{
    fill(entries, count);
    place_lists(entries.as_mut_slice(), lists);
}
