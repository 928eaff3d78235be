ghost use Rattle.std.specs.Prelude.{◌≡◌, ◌==◌, IfOk};
ghost use Rattle.std.specs.Option.{option_map};
ghost use Rattle.ctl_form.specs.Form.{form_of, implies, until};
ghost use Rattle.formula_text.specs.Tree.{leaf_form, prefix_form};
ghost use Rattle.formula_text.specs.inside.FormulaReading.{past, past_until, parse, mark_no, formula, chain_of, unary, goes_on, operand, group, wait};

use crate::chain::{Chain, chain_mark, chained};
use crate::sign::{Leaf, Mark, Prefix, Sign};
use ctl_form::Formula;
use pair_structure::Memory;
use std::alloc::Global;

fn mark_no(mark: Mark) -> u8
    ensures { result ≡ mark_no mark }
{
    match mark {
        Mark::And => 0,
        Mark::Or => 1,
        Mark::Arrow => 2,
        Mark::Close => 3,
        Mark::Left => 4,
        Mark::Right => 5,
    }
}

/// What stands past this mark, if it is first.
fn past(mark: Mark, signs: &[Sign]) -> Option<&[Sign]>
    ensures { option_map (λ rest. rest.now) result ≡ past mark signs.now }
{
    match signs {
        [Sign::Behind(found), rest @ ..] => {
            if mark_no(*found) == mark_no(mark) {
                Some(rest)
            } else {
                None
            }
        }
        _ => None,
    }
}

/// Whether the until is weak, if its sign is first, and what stands past it.
fn past_until(signs: &[Sign]) -> Option<(bool, &[Sign])>
    ensures { option_map (λ x. (x.0, x.1.now)) result ≡ past_until signs.now }
{
    match signs {
        [Sign::Until { weak }, rest @ ..] => Some((*weak, rest)),
        _ => None,
    }
}

fn leaf_formula(leaf: Leaf) -> Formula
    ensures { form_of result ≡ leaf_form leaf }
{
    match leaf {
        Leaf::Yes => Formula::Yes,
        Leaf::No => Formula::No,
        Leaf::At {
            side,
            local: Some(local),
        } => Formula::At { side, local },
        Leaf::At { side, local: None } => Formula::At { side, local: 0 },
    }
}

fn prefixed(alloc: Global, prefix: Prefix, f: Formula) -> Result<Formula, Memory>
    ensures { IfOk result (λ made. form_of made ≡ prefix_form prefix (form_of f)) }
{
    let f = Box::new(alloc, f)?;
    match prefix {
        Prefix::Not => Ok(Formula::Not(f)),
        Prefix::Next { all, side } => Ok(Formula::Next { all, side, f }),
        Prefix::Always { all } => Ok(Formula::Always { all, f }),
        Prefix::Sometime { all } => Ok(Formula::Sometime { all, f }),
    }
}

fn joined_by_arrow(alloc: Global, f: Formula, g: Formula) -> Result<Formula, Memory>
    ensures { IfOk result (λ made. form_of made ≡ implies (form_of f) (form_of g)) }
{
    let f = Box::new(alloc, f)?;
    let g = Box::new(alloc, g)?;
    Ok(Formula::Implies(f, g))
}

fn joined_by_until(
    alloc: Global,
    all: bool,
    weak: bool,
    f: Formula,
    g: Formula,
) -> Result<Formula, Memory>
    ensures { IfOk result (λ made. form_of made ≡ until all weak (form_of f) (form_of g)) }
{
    let f = Box::new(alloc, f)?;
    let g = Box::new(alloc, g)?;
    Ok(Formula::Until { all, weak, f, g })
}

/// The formula that is read first, and the signs behind it. Each function of this cycle reads one level of the grammar.
#[cycle(parser)]
#[tactic(auto, unfolding(crate::specs::inside::FormulaReading::parse))]
pub(crate) fn parse_formula<'a>(
    alloc: Global,
    depth: u128,
    signs: &'a [Sign],
) -> Result<Option<(Formula, &'a [Sign])>, Memory>
    ensures { IfOk result (λ found. option_map (λ x. (form_of x.0, x.1.now)) found ≡ parse depth formula signs.now) }
{
    if depth == 0 {
        return Ok(None);
    }
    let Some((f, rest)) = parse_chain(alloc, depth - 1, Chain::Disjunction, signs)? else {
        return Ok(None);
    };
    let Some(more) = past(Mark::Arrow, rest) else {
        return Ok(Some((f, rest)));
    };
    let Some((g, rest)) = parse_formula(alloc, depth - 1, more)? else {
        return Ok(None);
    };
    Ok(Some((joined_by_arrow(alloc, f, g)?, rest)))
}

/// A chain of operands that the operator joins.
#[cycle(parser)]
#[tactic(auto, unfolding(crate::specs::inside::FormulaReading::parse))]
fn parse_chain<'a>(
    alloc: Global,
    depth: u128,
    chain: Chain,
    signs: &'a [Sign],
) -> Result<Option<(Formula, &'a [Sign])>, Memory>
    ensures { IfOk result (λ found. option_map (λ x. (form_of x.0, x.1.now)) found ≡ parse depth (chain_of chain) signs.now) }
{
    if depth == 0 {
        return Ok(None);
    }
    let Some((f, rest)) = parse_operand(alloc, depth - 1, chain, signs)? else {
        return Ok(None);
    };
    Ok(parse_more(alloc, depth - 1, chain, f, rest)?)
}

/// An operand of a disjunction is a conjunction, and of that one a unary.
#[cycle(parser)]
fn parse_operand<'a>(
    alloc: Global,
    depth: u128,
    chain: Chain,
    signs: &'a [Sign],
) -> Result<Option<(Formula, &'a [Sign])>, Memory>
    ensures { IfOk result (λ found. option_map (λ x. (form_of x.0, x.1.now)) found ≡ parse depth (operand chain) signs.now) }
{
    match chain {
        Chain::Disjunction => Ok(parse_chain(alloc, depth, Chain::Conjunction, signs)?),
        Chain::Conjunction => Ok(parse_unary(alloc, depth, signs)?),
    }
}

/// The rest of a chain that has come to this formula.
#[cycle(parser)]
#[tactic(auto, unfolding(crate::specs::inside::FormulaReading::parse))]
fn parse_more<'a>(
    alloc: Global,
    depth: u128,
    chain: Chain,
    f: Formula,
    signs: &'a [Sign],
) -> Result<Option<(Formula, &'a [Sign])>, Memory>
    ensures { IfOk result (λ found. option_map (λ x. (form_of x.0, x.1.now)) found ≡ parse depth (goes_on chain (form_of f)) signs.now) }
{
    if depth == 0 {
        return Ok(None);
    }
    let Some(rest) = past(chain_mark(chain), signs) else {
        return Ok(Some((f, signs)));
    };
    let Some((g, rest)) = parse_operand(alloc, depth - 1, chain, rest)? else {
        return Ok(None);
    };
    Ok(parse_more(alloc, depth - 1, chain, chained(alloc, chain, f, g)?, rest)?)
}

#[cycle(parser)]
#[tactic(auto, unfolding(crate::specs::inside::FormulaReading::parse))]
fn parse_unary<'a>(
    alloc: Global,
    depth: u128,
    signs: &'a [Sign],
) -> Result<Option<(Formula, &'a [Sign])>, Memory>
    ensures { IfOk result (λ found. option_map (λ x. (form_of x.0, x.1.now)) found ≡ parse depth unary signs.now) }
{
    if depth == 0 {
        return Ok(None);
    }
    let [first, rest @ ..] = signs else {
        return Ok(None);
    };
    match *first {
        Sign::Alone(leaf) => Ok(Some((leaf_formula(leaf), rest))),
        Sign::Before(prefix) => {
            let Some((f, rest)) = parse_unary(alloc, depth - 1, rest)? else {
                return Ok(None);
            };
            Ok(Some((prefixed(alloc, prefix, f)?, rest)))
        }
        Sign::Open => Ok(parse_group(alloc, depth - 1, rest)?),
        Sign::Path { all } => Ok(parse_wait(alloc, depth - 1, all, rest)?),
        Sign::Behind(_) => Ok(None),
        Sign::Until { .. } => Ok(None),
        Sign::Other => Ok(None),
    }
}

/// A formula and the round parenthesis that closes it.
#[cycle(parser)]
#[tactic(auto, unfolding(crate::specs::inside::FormulaReading::parse))]
fn parse_group<'a>(
    alloc: Global,
    depth: u128,
    signs: &'a [Sign],
) -> Result<Option<(Formula, &'a [Sign])>, Memory>
    ensures { IfOk result (λ found. option_map (λ x. (form_of x.0, x.1.now)) found ≡ parse depth group signs.now) }
{
    if depth == 0 {
        return Ok(None);
    }
    let Some((f, rest)) = parse_formula(alloc, depth - 1, signs)? else {
        return Ok(None);
    };
    let Some(rest) = past(Mark::Close, rest) else {
        return Ok(None);
    };
    Ok(Some((f, rest)))
}

/// The two formulas of an until, in their square brackets.
#[cycle(parser)]
#[tactic(auto, unfolding(crate::specs::inside::FormulaReading::parse))]
fn parse_wait<'a>(
    alloc: Global,
    depth: u128,
    all: bool,
    signs: &'a [Sign],
) -> Result<Option<(Formula, &'a [Sign])>, Memory>
    ensures { IfOk result (λ found. option_map (λ x. (form_of x.0, x.1.now)) found ≡ parse depth (wait all) signs.now) }
{
    if depth == 0 {
        return Ok(None);
    }
    let Some(rest) = past(Mark::Left, signs) else {
        return Ok(None);
    };
    let Some((f, rest)) = parse_formula(alloc, depth - 1, rest)? else {
        return Ok(None);
    };
    let Some((weak, rest)) = past_until(rest) else {
        return Ok(None);
    };
    let Some((g, rest)) = parse_formula(alloc, depth - 1, rest)? else {
        return Ok(None);
    };
    let Some(rest) = past(Mark::Right, rest) else {
        return Ok(None);
    };
    Ok(Some((joined_by_until(alloc, all, weak, f, g)?, rest)))
}
