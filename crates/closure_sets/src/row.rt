ghost use Rattle.std.specs.Prelude.{◌≡◌, ◌<◌, ◌≤◌, ◌-◌, ℕ, length, min};
ghost use Rattle.std.specs.Int.{bit_at};
ghost use Rattle.closure_sets.specs.Expansion.{lowest, is_open, is_shared, no_members};
ghost use Rattle.closure_sets.specs.Row.{add, set_of, with_member, IsFirstBit, some_below};
ghost use Rattle.ctl_form.specs.declared.limits.TheConstants.{MAX_MEMBERS};

/// A set of member numbers below `MAX_MEMBERS`, in eight words of 64 bits. It takes no memory; rows are ordered by their words.
#[derive(Clone, Copy, Debug, PartialEq, Eq, PartialOrd, Ord)]
pub struct Row {
    words: [u64; 8],
}

impl Row {
    ghost use Rattle.closure_sets.specs.Found.{HasWords};

    /// The row without members.
    pub fn empty() -> Row
        ensures { set_of result.words ≡ no_members }
    {
        Row { words: [0; 8] }
    }

    /// Whether the member is in the row.
    pub fn has(&self, member: u32) -> bool
        requires { member < MAX_MEMBERS }
        ensures { result ≡ set_of self.now.words member }
    {
        self.words[(member / 64) as usize] >> (member % 64) & 1 == 1
    }

    /// Puts the member into the row.
    #[tactic(auto, using(crate::proofs::Words::set_of_with_member))]
    pub fn add(&mut self, member: u32)
        requires { member < MAX_MEMBERS }
        ensures { set_of self.new.words ≡ add (set_of self.old.words) member }
    {
        self.set_bit(member);
    }

    /// Reads the words, so that a proof knows that they are words.
    pub(crate) fn look(&self)
        ensures { HasWords self.now }
    {
        for place in 0..8 {
            let _word = self.words[place];
        }
    }

    fn set_bit(&mut self, member: u32)
        requires { member < MAX_MEMBERS }
        ensures words { self.new.words ≡ with_member self.old.words member }
        ensures long { length self.old.words ≡ 8 }
    {
        self.words[(member / 64) as usize] |= 1 << (member % 64);
    }

    /// The row with this member too.
    pub(crate) fn with(&self, member: u32) -> Row
        requires { member < MAX_MEMBERS }
        ensures { set_of result.words ≡ add (set_of self.now.words) member }
    {
        let mut row = *self;
        row.add(member);
        row
    }

    /// The members that the other row has not.
    pub(crate) fn without(&self, others: &Row) -> Row
        ensures { (i : ℕ) → i < MAX_MEMBERS → set_of result.words i ≡ is_open (set_of self.now.words) (set_of others.now.words) i }
    {
        let mut row = *self;
        for place in 0..8 {
            row.words[place] = word_without(row.words[place], others.words[place]);
        }
        row
    }

    /// The members that the other row has too.
    pub(crate) fn shared(&self, others: &Row) -> Row
        ensures { (i : ℕ) → i < MAX_MEMBERS → set_of result.words i ≡ is_shared (set_of self.now.words) (set_of others.now.words) i }
    {
        let mut row = *self;
        for place in 0..8 {
            row.words[place] = word_shared(row.words[place], others.words[place]);
        }
        row
    }

    /// The lowest member, if it is below the count. A word at a time.
    pub(crate) fn lowest(&self, count: u32) -> Option<u32>
        requires { count ≤ MAX_MEMBERS }
        ensures { result ≡ lowest count (set_of self.now.words) }
    {
        for place in 0..8 {
            let word = self.words[place];
            if word != 0 {
                return below(64 * place as u32 + first_bit(word), count);
            }
        }
        None
    }

    /// The lowest member below the count that the other row has not.
    pub(crate) fn lowest_open(&self, treated: &Row, count: u32) -> Option<u32>
        requires { count ≤ MAX_MEMBERS }
        ensures { result ≡ lowest count (is_open (set_of self.now.words) (set_of treated.now.words)) }
    {
        self.without(treated).lowest(count)
    }

    /// The lowest member below the count that the other row has too.
    pub(crate) fn lowest_shared(&self, others: &Row, count: u32) -> Option<u32>
        requires { count ≤ MAX_MEMBERS }
        ensures { result ≡ lowest count (is_shared (set_of self.now.words) (set_of others.now.words)) }
    {
        self.shared(others).lowest(count)
    }
}

fn word_without(word: u64, other: u64) -> u64
    ensures { (bit : ℕ) → bit < 64 → bit_at result bit ≡ min (bit_at word bit) (1 - bit_at other bit) }
{
    word & !other
}

fn word_shared(word: u64, other: u64) -> u64
    ensures { (bit : ℕ) → bit < 64 → bit_at result bit ≡ min (bit_at word bit) (bit_at other bit) }
{
    word & other
}

/// The place of the lowest bit.
fn first_bit(word: u64) -> u32
    requires { 0 < word }
    ensures { IsFirstBit word result }
{
    word.trailing_zeros()
}

fn below(member: u32, count: u32) -> Option<u32>
    ensures { result ≡ some_below count member }
{
    if member < count {
        return Some(member);
    }
    None
}
