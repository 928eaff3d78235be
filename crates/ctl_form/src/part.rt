use pair_structure::Side;

/// What a formula in normal form is built of, its parts named by their member numbers.
#[derive(Clone, Copy, Debug, PartialEq, Eq, PartialOrd, Ord)]
pub enum Part {
    Yes,
    No,
    /// This side is in this local state, or is not.
    Lit {
        side: Side,
        local: u8,
        is: bool,
    },
    Both {
        f: u32,
        g: u32,
    },
    Either {
        f: u32,
        g: u32,
    },
    /// AX or EX of one side.
    Next {
        all: bool,
        side: Side,
        f: u32,
    },
    /// A or E, weak or strong.
    Until {
        all: bool,
        weak: bool,
        f: u32,
        g: u32,
    },
}
