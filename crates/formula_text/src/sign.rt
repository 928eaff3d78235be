use pair_structure::Side;

/// An operator that stands before its operand.
#[derive(Clone, Copy, Debug)]
pub enum Prefix {
    Not,
    /// AX or EX, of one side or of either.
    Next { all: bool, side: Option<Side> },
    /// AG or EG.
    Always { all: bool },
    /// AF or EF.
    Sometime { all: bool },
}

/// A formula of one token.
#[derive(Clone, Copy, Debug)]
pub enum Leaf {
    Yes,
    No,
    /// This side is in this local state; None is a name that its role does not have.
    At { side: Side, local: Option<u8> },
}

/// A token that stands behind a part of a formula.
#[derive(Clone, Copy, Debug, PartialEq, Eq)]
pub enum Mark {
    And,
    Or,
    Arrow,
    Close,
    Left,
    Right,
}

/// What one token says in a formula.
#[derive(Clone, Copy, Debug)]
pub enum Sign {
    Alone(Leaf),
    Before(Prefix),
    Open,
    Behind(Mark),
    /// A or E of an until.
    Path { all: bool },
    /// U, or W where it is weak.
    Until { weak: bool },
    /// A token that stands in no formula.
    Other,
}
