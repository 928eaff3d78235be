use std::alloc::AllocError;
use thiserror::Error;

/// Why some parts are no network. The order of the variants is the order of refusals: the first that stands is answered, and of one
/// kind the lowest number; want of memory may come in place of any.
#[derive(Clone, Copy, Debug, PartialEq, Eq, Error)]
pub enum NetworkFault {
    /// There are more than 16 roles, more than 16 kinds or more than 1,024 processes, tried in this order.
    #[error("more than {limit} of a part")]
    TooMany { limit: u32 },
    /// An end of the kind is no role.
    #[error("an end of kind {kind} is no role")]
    EndRange { kind: u8 },
    /// The role of the process is none.
    #[error("the role of process {process} is none")]
    ProcessRole { process: u32 },
    /// The start of the process is none of its role's starts.
    #[error("process {process} starts in none of the role's starts")]
    ProcessStart { process: u32 },
    /// An end of the edge is no process, or its kind is none.
    #[error("edge {edge} names no process or no kind")]
    EdgeRange { edge: u32 },
    /// The edge joins a process with itself.
    #[error("edge {edge} joins a process with itself")]
    SelfEdge { edge: u32 },
    /// The edge joins the two processes of an earlier one, in either direction; it is the later that is named.
    #[error("edge {edge} joins the processes of an earlier one")]
    EdgeTwice { edge: u32 },
    /// The roles of the edge's processes are not those of its kind.
    #[error("edge {edge} has processes of other roles than its kind")]
    RoleMismatch { edge: u32 },
    /// The process has more than 64 neighbours.
    #[error("process {process} has more than 64 neighbours")]
    DegreeOver { process: u32 },
    /// Memory ran out.
    #[error("out of memory")]
    Memory,
}

impl From<AllocError> for NetworkFault {
    ghost use Rattle.std.specs.Prelude.{◌≡◌};
    ghost use Rattle.interconnection.specs.declared.fault.NetworkFault.TheVariants.{Memory};

    ghost from_gives = { λ _ fault. fault ≡ Memory };

    fn from(_fault: AllocError) -> NetworkFault {
        NetworkFault::Memory
    }
}
