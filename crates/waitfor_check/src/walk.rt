ghost use Rattle.std.specs.Prelude.{◌≡◌, ◌<◌, ◌≤◌, ◌^◌, ℕ, length, take, drop, []};
ghost use Rattle.waitfor_check.specs.inside.Walk.{AreSorted, EachDiffer, IsBounded, IsWalked, completions};

use crate::Members;
use crate::numbers::Numbers;

/// What a walk over choices found.
#[derive(Clone, Copy, Debug, PartialEq, Eq)]
pub enum Walked {
    /// Each is a member, and there are so many.
    All { count: u64 },
    /// The choice at this place is the first that is none.
    Missing { at: u64 },
}

/// Walks over all choices that begin with the first numbers of the target, by rising list, up to the first that is no
/// member. Takes no memory; a binary search among the members for each choice.
pub(crate) fn walk(lists: &[Numbers], place: usize, target: &mut [u64], members: &Members) -> Walked
    requires place { place ≤ length lists.now }
    requires target { length target.old ≡ length lists.now }
    requires members { AreSorted members.now }
    requires differ { EachDiffer lists.now }
    ensures kept { take place target.new ≡ take place target.old }
    ensures walked { IsWalked members.now (completions (take place target.old) (drop place lists.now)) result }
    ensures bounded { IsBounded members.now result }
{
    if place == lists.len() {
        return tried(target, members);
    }
    let _small = members.len();
    let mut count = 0;
    for i in 0..lists[place].len() {
        target[place] = lists[place].at(i);
        match walk(lists, place + 1, target, members) {
            Walked::All { count: more } => count += more,
            Walked::Missing { at } => return Walked::Missing { at: count + at },
        }
    }
    Walked::All { count }
}

/// The walk over one choice.
fn tried(states: &[u64], members: &Members) -> Walked
    requires { AreSorted members.now }
    ensures { IsWalked members.now (completions states.now []) result }
{
    if members.has(states) {
        return Walked::All { count: 1 };
    }
    Walked::Missing { at: 0 }
}
