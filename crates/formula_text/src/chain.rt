ghost use Rattle.std.specs.Prelude.{◌≡◌, IfOk};
ghost use Rattle.ctl_form.specs.Form.{form_of};
ghost use Rattle.formula_text.specs.inside.FormulaReading.{chain_mark, chained};

use crate::sign::Mark;
use ctl_form::Formula;
use pair_structure::Memory;
use std::alloc::Global;

/// The two levels of the grammar whose operator groups to the left.
#[derive(Clone, Copy, Debug)]
pub(crate) enum Chain {
    Disjunction,
    Conjunction,
}

/// The mark of the operator.
pub(crate) fn chain_mark(chain: Chain) -> Mark
    ensures { result ≡ chain_mark chain }
{
    match chain {
        Chain::Disjunction => Mark::Or,
        Chain::Conjunction => Mark::And,
    }
}

/// The two formulas under the operator.
pub(crate) fn chained(
    alloc: Global,
    chain: Chain,
    f: Formula,
    g: Formula,
) -> Result<Formula, Memory>
    ensures { IfOk result (λ made. form_of made ≡ chained chain (form_of f) (form_of g)) }
{
    let f = Box::new(alloc, f)?;
    let g = Box::new(alloc, g)?;
    match chain {
        Chain::Disjunction => Ok(Formula::Or(f, g)),
        Chain::Conjunction => Ok(Formula::And(f, g)),
    }
}
