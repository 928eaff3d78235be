//! A stored policy: a closure beside the fact of what it answers.
ghost use Rattle.std.specs.Prelude.{◌≡◌, ◌<◌, ◌^◌, ℕ};
ghost use Rattle.firing_crew.specs.Policies.{chosen};

/// A closure that is asked which of so many arcs a caller takes at a word.
pub type Chooser = Box<dyn Fn(u64, u64) -> u64 + Sync>;

/// Which of so many arcs a caller takes at a word. Of a count from 1 and a word, both of 64 bits, the closure may be asked, and answers
/// the sum of the word and the turn, a number without bound, modulo the count.
#[derive(Drop)]
pub struct Policy {
    chooser: Chooser,
    turn: u64,
    ghost callable: { (count word : ℕ) → 0 < count → count < 2 ^ 64 → word < 2 ^ 64 → pre chooser count word },
    ghost answers: { (count word answer : ℕ) → 0 < count → count < 2 ^ 64 → word < 2 ^ 64 → post chooser count word answer → answer ≡ chosen turn count word },
}

impl Policy {
    /// The policy of a closure that answers so with this turn.
    pub fn new(chooser: Chooser, turn: u64) -> Policy
        requires callable { (count word : ℕ) → 0 < count → count < 2 ^ 64 → word < 2 ^ 64 → pre chooser count word }
        requires answers { (count word answer : ℕ) → 0 < count → count < 2 ^ 64 → word < 2 ^ 64 → post chooser count word answer → answer ≡ chosen turn count word }
        ensures turn { result.turn ≡ turn }
    {
        Policy { chooser, turn }
    }

    /// The number that it adds to each word.
    pub fn turn(&self) -> u64
        ensures { result ≡ self.now.turn }
    {
        self.turn
    }

    /// Asks the closure which of so many arcs it takes at the word.
    pub fn choose(&self, count: u64, word: u64) -> u64
        requires some { 0 < count }
        ensures chosen { result ≡ chosen self.now.turn count word }
    {
        (self.chooser)(count, word)
    }
}
