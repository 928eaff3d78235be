ghost use Rattle.strict_text.specs.Spaced.{WordsOfLine, OneLine};

/// A line of words has these words.
pub fn words_of_line()
    ensures { WordsOfLine }
{}

/// Words are written by one line alone.
pub fn one_line()
    ensures { OneLine }
{}
