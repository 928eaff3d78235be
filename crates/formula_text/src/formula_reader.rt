ghost use Rattle.std.specs.Prelude.{◌≡◌, ◌≤◌, ◌<◌, ◌*◌, ◌+◌, ◌^◌, IfOk, IfErr, IfSome, IfNone, length, map};
ghost use Rattle.std.specs.List.{list_all};
ghost use Rattle.ctl_form.specs.Form.{form_of, Form};
ghost use Rattle.formula_text.specs.Tree.{Spells, IsFormulaOf, FaultStands, is_known, is_known_leaf};

use crate::FormulaFault;
use crate::formula_parser::parse_formula;
use crate::local_set::LocalSet;
use crate::sign::{Leaf, Sign};
use crate::token_sign::signs_over;
use ctl_form::Formula;
use pair_structure::{MAX_LOCALS, Memory, Name};
use std::alloc::Global;

/// The formula that these tokens spell over what the atoms of the two sides may name: the local states of a role, and its sets. Linear in
/// the tokens, the names and the members of the sets that they name.
pub fn read_formula(
    alloc: Global,
    a: &[Name],
    a_sets: &[LocalSet],
    b: &[Name],
    b_sets: &[LocalSet],
    tokens: &[&[u8]],
) -> Result<Formula, FormulaFault>
    requires few_a { length a.now ≤ MAX_LOCALS }
    requires few_b { length b.now ≤ MAX_LOCALS }
    ensures ok { IfOk result (λ f. IsFormulaOf (record { locals = a.now; sets = a_sets.now }) (record { locals = b.now; sets = b_sets.now }) (map (λ t. t.now) tokens.now) (form_of f)) }
    ensures fault { IfErr result (FaultStands (record { locals = a.now; sets = a_sets.now }) (record { locals = b.now; sets = b_sets.now }) (map (λ t. t.now) tokens.now)) }
{
    let signs = signs_over(alloc, a, a_sets, b, b_sets, tokens)?;
    let Some(f) = formula_of(alloc, signs.len() as u128, &signs)? else {
        return Err(FormulaFault::Outside);
    };
    if are_known(&signs) {
        Ok(f)
    } else {
        Err(FormulaFault::Unknown)
    }
}

/// The formula that so many signs spell, if they spell one.
fn formula_of(alloc: Global, count: u128, signs: &[Sign]) -> Result<Option<Formula>, Memory>
    requires count { count ≡ length signs.now }
    requires few { count < 2 ^ 64 }
    ensures some { IfOk result (λ found. IfSome found (λ f. Spells signs.now (form_of f))) }
    ensures none { IfOk result (λ found. IfNone found ((f : Form) → Spells signs.now f → ⊥)) }
{
    match parse_formula(alloc, 5 * count + 5, signs)? {
        Some((f, [])) => Ok(Some(f)),
        Some((_, _)) => Ok(None),
        None => Ok(None),
    }
}

/// Each name among these is one of its role's.
fn are_known(signs: &[Sign]) -> bool
    ensures { result ≡ list_all is_known signs.now }
{
    signs.iter().all(|sign| is_known(*sign))
}

fn is_known(sign: Sign) -> bool
    ensures { result ≡ is_known sign }
{
    match sign {
        Sign::Alone(leaf) => is_known_leaf(leaf),
        _ => true,
    }
}

fn is_known_leaf(leaf: Leaf) -> bool
    ensures { result ≡ is_known_leaf leaf }
{
    match leaf {
        Leaf::At { local: None, .. } => false,
        _ => true,
    }
}
