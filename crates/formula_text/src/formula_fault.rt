ghost use Rattle.std.specs.Prelude.{◌≡◌};
ghost use Rattle.formula_text.specs.declared.formula_fault.FormulaFault.TheVariants.{Memory};

use thiserror::Error;

/// Why tokens gave no formula. Of two that stand the first is answered, but Memory may come in place of any.
#[derive(Clone, Copy, Debug, PartialEq, Eq, Error)]
pub enum FormulaFault {
    /// The tokens are outside the grammar, a misspelt name among them.
    #[error("not a formula")]
    Outside,
    /// A name is none of the local states of its side's role.
    #[error("an unknown name")]
    Unknown,
    /// Memory ran out.
    #[error("out of memory")]
    Memory,
}

impl From<pair_structure::Memory> for FormulaFault {
    ghost from_gives = { λ _ e. e ≡ Memory };

    fn from(_fault: pair_structure::Memory) -> FormulaFault {
        FormulaFault::Memory
    }
}
