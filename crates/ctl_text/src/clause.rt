ghost use Rattle.std.specs.Prelude.{◌≡◌, ◌↔◌, ◌≤◌, ◌∷◌, [], IsTrue, IfOk, IfErr, length, map, codes};
ghost use Rattle.ctl_form.specs.Form.{form_of};
ghost use Rattle.pair_structure.specs.Parts.{role_at};
ghost use Rattle.text_cause.specs.Answers.{IsBadBy};
ghost use Rattle.ctl_text.specs.inside.Judged.{IsTakenAs, IsClauseOf, IsSpelledOver, SpellingStands};
ghost use Rattle.formula_text.specs.Long.{IsLong};
ghost use Rattle.ctl_text.specs.Required.{tokens_in};
ghost use Rattle.ctl_text.specs.State.{with_form};
ghost use Rattle.ctl_text.specs.Cause.{WordsStand};
ghost use Rattle.ctl_text.specs.inside.Sound.{IsSoundState};
ghost use Rattle.ctl_text.specs.inside.View.{group_of, state_of};

use crate::grown::with_form;
use crate::place::{Place, Reader};
use crate::sets::sets_at;
use ctl_form::Formula;
use formula_text::{FormulaFault, LocalSet, is_long, read_formula, tokens_of};
use pair_structure::{MAX_LOCALS, Memory, Name, Role};
use std::alloc::{AllocError, Global};
use text_cause::{LineFault, TextCause};

/// What stands below a line that requires a clause, of these words behind `require`.
pub(crate) fn take_clause(
    alloc: Global,
    reader: Reader,
    words: &[&[u8]],
) -> Result<Reader, LineFault>
    requires { IsSoundState (state_of reader) }
    ensures taken { IfOk result (λ r. IsTakenAs (state_of reader) (codes "require" ∷ map (λ w. w.now) words.now) (state_of r)) }
    ensures sound { IfOk result (λ r. IsSoundState (state_of r)) }
    ensures refused { IfErr result (IsBadBy (WordsStand (state_of reader) (codes "require" ∷ map (λ w. w.now) words.now))) }
{
    let formula = clause_of(alloc, &reader, words)?;
    let reader = with_formula(reader, formula)?;
    Ok(reader)
}

/// The clause that the words spell for the open kind.
fn clause_of(alloc: Global, reader: &Reader, words: &[&[u8]]) -> Result<Formula, LineFault>
    ensures clause { IfOk result (λ f. IsClauseOf (state_of reader.now) (map (λ w. w.now) words.now) (form_of f)) }
    ensures refused { IfErr result (IsBadBy (WordsStand (state_of reader.now) (codes "require" ∷ map (λ w. w.now) words.now))) }
{
    match &reader.place {
        Place::BeforeHead => Err(LineFault::Bad(TextCause::BadHead)),
        Place::InKind { role_a, role_b, .. } => {
            let a = locals_at(reader.pairs.roles(), *role_a);
            let b = locals_at(reader.pairs.roles(), *role_b);
            let a_sets = sets_at(&reader.sets, *role_a);
            let b_sets = sets_at(&reader.sets, *role_b);
            match spelled_over(alloc, a, a_sets, b, b_sets, words) {
                Ok(formula) => Ok(formula),
                Err(fault) => Err(fault),
            }
        }
        _ => {
            if are_long(alloc, words)? {
                return Err(LineFault::Bad(TextCause::Long));
            }
            Err(LineFault::Bad(TextCause::BadLine))
        }
    }
}

/// The names of the local states of a role by its number, and none past the end.
fn locals_at(roles: &[Role], n: u8) -> &[Name]
    ensures locals { result.now ≡ (role_at roles.now n).locals }
    ensures few { length result.now ≤ MAX_LOCALS }
{
    match roles.get(n as usize) {
        Some(role) => role.locals(),
        None => &[],
    }
}

/// The formula that the words spell over these local states and sets.
fn spelled_over(
    alloc: Global,
    a: &[Name],
    a_sets: &[LocalSet],
    b: &[Name],
    b_sets: &[LocalSet],
    words: &[&[u8]],
) -> Result<Formula, LineFault>
    requires few_a { length a.now ≤ MAX_LOCALS }
    requires few_b { length b.now ≤ MAX_LOCALS }
    ensures spelled { IfOk result (λ f. IsSpelledOver (record { locals = a.now; sets = a_sets.now }) (record { locals = b.now; sets = b_sets.now }) (tokens_in (map (λ w. w.now) words.now)) (form_of f)) }
    ensures refused { IfErr result (IsBadBy (SpellingStands (record { locals = a.now; sets = a_sets.now }) (record { locals = b.now; sets = b_sets.now }) (tokens_in (map (λ w. w.now) words.now)))) }
{
    let tokens = tokens_of(alloc, words)?;
    match formula_over(alloc, a, a_sets, b, b_sets, &tokens) {
        Ok(formula) => Ok(formula),
        Err(fault) => Err(fault),
    }
}

/// The formula that these tokens spell over these local states and sets.
fn formula_over(
    alloc: Global,
    a: &[Name],
    a_sets: &[LocalSet],
    b: &[Name],
    b_sets: &[LocalSet],
    tokens: &[&[u8]],
) -> Result<Formula, LineFault>
    requires few_a { length a.now ≤ MAX_LOCALS }
    requires few_b { length b.now ≤ MAX_LOCALS }
    ensures spelled { IfOk result (λ f. IsSpelledOver (record { locals = a.now; sets = a_sets.now }) (record { locals = b.now; sets = b_sets.now }) (map (λ t. t.now) tokens.now) (form_of f)) }
    ensures refused { IfErr result (IsBadBy (SpellingStands (record { locals = a.now; sets = a_sets.now }) (record { locals = b.now; sets = b_sets.now }) (map (λ t. t.now) tokens.now))) }
{
    if is_long(a_sets, b_sets, tokens) {
        return Err(LineFault::Bad(TextCause::Long));
    }
    match read_formula(alloc, a, a_sets, b, b_sets, tokens) {
        Ok(formula) => Ok(formula),
        Err(FormulaFault::Outside) => Err(LineFault::Bad(TextCause::BadLine)),
        Err(FormulaFault::Unknown) => Err(LineFault::Bad(TextCause::UnknownName)),
        Err(FormulaFault::Memory) => Err(LineFault::Memory),
    }
}

/// Whether a clause of these words is too long where no kind is open.
fn are_long(alloc: Global, words: &[&[u8]]) -> Result<bool, Memory>
    ensures { IfOk result (λ long. IsTrue long ↔ IsLong [] [] (tokens_in (map (λ w. w.now) words.now))) }
{
    let tokens = tokens_of(alloc, words)?;
    Ok(is_long(&[], &[], &tokens))
}

/// The open kind with one more clause.
fn with_formula(mut reader: Reader, formula: Formula) -> Result<Reader, AllocError>
    requires { IsSoundState (state_of reader) }
    ensures grown { IfOk result (λ r. state_of r ≡ record { parts = (state_of reader).parts; group = with_form (group_of reader.place) (form_of formula) }) }
    ensures sound { IfOk result (λ r. IsSoundState (state_of r)) }
{
    reader.place = with_form(reader.place, formula)?;
    Ok(reader)
}
