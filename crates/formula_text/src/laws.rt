ghost use Rattle.formula_text.specs.Canonical.{CanonicalIsFormula};
ghost use Rattle.formula_text.specs.Tree.{IsSpelledOnce};

/// The canonical text of a formula over two roles' names is a spelling of that formula: what is written is read back.
pub fn canonical_is_formula()
    ensures { CanonicalIsFormula }
{}

/// Signs spell one formula at most.
pub fn is_spelled_once()
    ensures { IsSpelledOnce }
{}
