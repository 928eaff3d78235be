ghost use Rattle.std.specs.Prelude.{◌≡◌, ◌≤◌};
ghost use Rattle.interconnection.specs.declared.limits.TheConstants.{MAX_PROCESSES};
ghost use Rattle.ctl_text.specs.Format.{most_processes, most_neighbours};

use interconnection::{MAX_NEIGHBOURS, MAX_PROCESSES};

/// The most sets of a role.
pub const MAX_SETS: usize = 16;

/// The most processes of a text of format 1.
pub const FIRST_PROCESSES: usize = 1024;

/// The most neighbours of a process in a text of format 1.
pub const FIRST_NEIGHBOURS: usize = 32;

/// The formats of specifications, by the head of the text. The second has sets, and lets as many processes and neighbours as a network.
#[derive(Clone, Copy, Debug, PartialEq, Eq)]
pub enum Format {
    /// Head `pairs 1`.
    First,
    /// Head `pairs 2`.
    Second,
}

/// The most processes of a text of the format.
pub(crate) fn most_processes(format: Format) -> usize
    ensures most { result ≡ most_processes format }
    ensures small { result ≤ MAX_PROCESSES }
{
    match format {
        Format::First => FIRST_PROCESSES,
        Format::Second => MAX_PROCESSES,
    }
}

/// The most neighbours of a process in a text of the format.
pub(crate) fn most_neighbours(format: Format) -> usize
    ensures { result ≡ most_neighbours format }
{
    match format {
        Format::First => FIRST_NEIGHBOURS,
        Format::Second => MAX_NEIGHBOURS,
    }
}
