/// How a call ends.
#[derive(Clone, Copy, Debug, PartialEq, Eq)]
pub(crate) enum Status {
    Done,
    Usage,
    Refused,
    Unsatisfiable,
    Fails,
    ReadFault,
    WriteFault,
    OutOfLimits,
    OutOfMemory,
}

impl Status {
    ghost use Rattle.std.specs.Prelude.{◌≡◌};
    ghost use Rattle.skeleton_tool.specs.Status.{code_of};

    /// The number that the program ends with.
    pub(crate) fn code(self) -> u8
        ensures { result ≡ code_of self }
    {
        match self {
            Status::Done => 0,
            Status::Usage => 1,
            Status::Refused => 2,
            Status::Unsatisfiable => 3,
            Status::Fails => 4,
            Status::ReadFault => 5,
            Status::WriteFault => 6,
            Status::OutOfLimits => 7,
            Status::OutOfMemory => 8,
        }
    }
}
