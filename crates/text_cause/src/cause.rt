ghost use Rattle.std.specs.Prelude.{◌≡◌};
ghost use Rattle.text_cause.specs.Cause.{cause_word};

use pair_structure::StructureFault;
use thiserror::Error;

/// Why a line of a text is refused. Of several causes of one line the first in this order is named.
#[derive(Clone, Copy, Debug, PartialEq, Eq, Error)]
pub enum TextCause {
    /// The line has a byte that is not allowed.
    #[error("NotText")]
    NotText,
    /// The first line that is not passed over is not the head, or there is none.
    #[error("BadHead")]
    BadHead,
    /// A required formula has more than 256 tokens that are not round parentheses, or more than 256 open round parentheses at one place.
    #[error("Long")]
    Long,
    /// The line may not stand here, has another number of words, a misspelt name or number, or a formula outside the grammar.
    #[error("BadLine")]
    BadLine,
    /// A name, or a number that names something, names nothing.
    #[error("UnknownName")]
    UnknownName,
    /// A name of one name space, a start of a role, an arc, or the shape of a star is declared again, or a set names a local state twice.
    #[error("Twice")]
    Twice,
    /// An arc has the same local state at both ends.
    #[error("SelfArc")]
    SelfArc,
    /// At the end of a role no arc leaves this local state, the lowest such.
    #[error("NoArc")]
    NoArc { local: u8 },
    /// The line declares one more than this limit.
    #[error("TooMany")]
    TooMany { limit: u32 },
    /// At the end of a kind, its closure has more members than the limit.
    #[error("ClosureOver")]
    ClosureOver,
    /// An edge names one process twice.
    #[error("SelfEdge")]
    SelfEdge,
    /// An edge between these two processes stands above.
    #[error("EdgeTwice")]
    EdgeTwice,
    /// An edge gives this process, the lower one of two such, one neighbour more than may be.
    #[error("DegreeOver")]
    DegreeOver { process: u32 },
    /// A process has not the kind's role of its side, or a label of a star not the star's role.
    #[error("RoleMismatch")]
    RoleMismatch,
    /// At the end of a kind in a solution, its states and moves are no pair structure.
    #[error("NotAPair")]
    NotAPair { fault: StructureFault },
    /// The labels of a star fall, or a member is not greater than the one above it.
    #[error("NotRising")]
    NotRising,
    /// The pair states of a member have different local states of the centre.
    #[error("Disagree")]
    Disagree,
    /// A process begins in a local state of its role that is none of the role's starts.
    #[error("NotAStart")]
    NotAStart,
}

/// Why a text is refused.
#[derive(Clone, Copy, Debug, PartialEq, Eq, Error)]
pub enum TextFault {
    /// The first bad line, counted from 1, and its lowest cause.
    #[error("{what} in line {line}")]
    At { line: u64, what: TextCause },
    /// Memory ran out.
    #[error("out of memory")]
    Memory,
}

/// The name of a cause, without its fields.
pub fn cause_word(cause: TextCause) -> &'static str
    ensures { result.now ≡ cause_word cause }
{
    match cause {
        TextCause::NotText => "NotText",
        TextCause::BadHead => "BadHead",
        TextCause::Long => "Long",
        TextCause::BadLine => "BadLine",
        TextCause::UnknownName => "UnknownName",
        TextCause::Twice => "Twice",
        TextCause::SelfArc => "SelfArc",
        TextCause::NoArc { .. } => "NoArc",
        TextCause::TooMany { .. } => "TooMany",
        TextCause::ClosureOver => "ClosureOver",
        TextCause::SelfEdge => "SelfEdge",
        TextCause::EdgeTwice => "EdgeTwice",
        TextCause::DegreeOver { .. } => "DegreeOver",
        TextCause::RoleMismatch => "RoleMismatch",
        TextCause::NotAPair { .. } => "NotAPair",
        TextCause::NotRising => "NotRising",
        TextCause::Disagree => "Disagree",
        TextCause::NotAStart => "NotAStart",
    }
}
