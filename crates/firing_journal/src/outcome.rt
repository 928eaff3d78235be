use conjunctive_compose::{StepAnswer, Whole};

/// What a journal's wishes are, fired one after another from the start of a system.
#[derive(Debug, Drop)]
pub enum Replay {
    /// A run, which leaves this whole state, and in which each process fires so often.
    Run { whole: Whole, moves: Vec<u64> },
    /// No run: the first entry that does not move, and what its wish is answered.
    NotARun { at: u64, why: StepAnswer },
}
