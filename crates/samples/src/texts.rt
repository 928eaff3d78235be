//! The texts of the samples. A `/` stands for a line feed.

use std::alloc::Global;
use std::test::Fail;

/// The philosopher: its arcs N T and C N are free.
pub const PHIL: &str =
    "role phil/local N/local T/local C/start N/arc N T free/arc T C/arc C N free/end/";

/// The philosopher with no free arc.
pub const BOUND: &str = "role phil/local N/local T/local C/start N/arc N T/arc T C/arc C N/end/";

/// The philosopher with free arcs alone.
pub const UNBARRED: &str =
    "role phil/local N/local T/local C/start N/arc N T free/arc T C free/arc C N free/end/";

/// The lamp, which is switched on and off.
pub const LAMP: &str = "role lamp/local L/local R/start L/arc L R/arc R L/end/";

/// The lamp that starts off or on.
pub const EITHER: &str = "role lamp/local L/local R/start L/start R/arc L R/arc R L/end/";

/// Philosophers never eat both, and each that waits comes to eat.
pub const FAIR: &str = "AG !(a.C & b.C); AG (a.T -> AF a.C); AG (b.T -> AF b.C)";

/// Two philosophers; of two that wait, the one that came first goes.
pub const FIRST: &str =
    "00 10 01 20 11 11 02 21 12 | 0a1 0b2 1a3 1b4 2a5 2b6 3a0 3b7 4a7 5b8 6a8 6b0 7a2 8b1";

/// The same, but the one that came last goes.
pub const LAST: &str =
    "00 10 01 20 11 11 02 21 12 | 0a1 0b2 1a3 1b4 2a5 2b6 3a0 3b7 4b8 5a7 6a8 6b0 7a2 8b1";

/// The same, but side a goes.
pub const PRIOR: &str =
    "00 10 01 20 11 02 21 12 | 0a1 0b2 1a3 1b4 2a4 2b5 3a0 3b6 4a6 5a7 5b0 6a2 7b1";

/// Side a goes to one of four states with one label, and back; side b stays.
pub const FOUR: &str = "00 10 10 10 10 20 | 0a1 0a2 0a3 0a4 1a5 2a5 3a5 4a5 5a0";

/// Two lamps that are switched on in turn, and off in turn.
pub const TURN: &str = "00 01 11 10 | 0b1 1a2 2b3 3a0";

/// The same of lamps that start off or on: from each pair of starts.
pub const EITHER_TURN: &str = "00 01 10 11 | 0b1 1a3 2a0 3b2";

/// The text with a line feed for each `/`.
pub fn to_lines(alloc: Global, text: &str) -> Result<String, Fail> {
    Ok(text.replace(alloc, "/", "\n")?)
}

/// The text with a `/` for each line feed.
pub fn to_slashes(alloc: Global, bytes: &[u8]) -> Result<String, Fail> {
    let text = String::from_utf8_lossy(alloc, bytes)?;
    Ok(text.as_str().replace(alloc, "\n", "/")?)
}
