//! Choosing among the arcs that leave a local state.
ghost use Rattle.std.specs.Prelude.{◌≡◌, ◌<◌};
ghost use Rattle.firing_crew.specs.Choice.{IsLeavingArc, leaving_count};

use pair_structure::LocalArc;

/// How many arcs leave the local state.
pub(crate) fn count_leaving(arcs: &[LocalArc], local: u8) -> usize
    ensures { result ≡ leaving_count arcs.now local }
{
    arcs.iter().filter(|arc| arc.from == local).count()
}

/// The number of the arc that leaves the local state behind n others.
pub(crate) fn leaving_arc(arcs: &[LocalArc], local: u8, n: u64) -> usize
    requires { n < leaving_count arcs.now local }
    ensures { IsLeavingArc arcs.now local n result }
{
    let mut before: u64 = 0;
    for (i, arc) in arcs.iter().enumerate() {
        if arc.from == local {
            if before == n {
                return i;
            }
            before += 1;
        }
    }
    unreachable!()
}
