ghost use Rattle.solution_text.specs.Laws.{NeverBoth, NoPrefix, OneText, WrittenIsText};

/// What is written of a solution is a text of it.
pub fn written_is_text()
    ensures { WrittenIsText }
{}

/// A solution has one text at most.
pub fn one_text()
    ensures { OneText }
{}

/// No proper prefix of a solution's text is a text of any solution.
pub fn no_prefix()
    ensures { NoPrefix }
{}

/// No text is both read and refused.
pub fn never_both()
    ensures { NeverBoth }
{}
