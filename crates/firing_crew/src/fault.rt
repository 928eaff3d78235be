/// Why a crew gives no report. Of two that stand the first is answered.
#[derive(Clone, Copy, Debug, PartialEq, Eq)]
pub enum CrewFault {
    /// A crew has 1 to 64 callers, and no more than processes.
    Callers,
    /// Each caller has 1 to 65,536 replies.
    Room,
    /// Memory was missing at the open, for the workers, or at the close.
    Memory,
}
