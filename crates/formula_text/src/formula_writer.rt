ghost use Rattle.std.specs.Prelude.{◌≡◌, ◌++◌, ◌∷◌, [], OnOk, codes};
ghost use Rattle.ctl_form.specs.Form.{form_of};
ghost use Rattle.formula_text.specs.FormulaText.{atom_text, path_letter, side_letters, formula_text};

use ctl_form::Formula;
use pair_structure::{Name, Side, push_name};
use std::alloc::AllocError;

/// Appends the canonical text of a formula, over the names of each side's local states.
#[cycle(writer)]
pub fn write_formula(
    a: &[Name],
    b: &[Name],
    f: &Formula,
    into: &mut Vec<u8>,
) -> Result<(), AllocError>
    ensures { OnOk result (into.new.items ≡ into.old.items ++ formula_text a.now b.now (form_of f.now)) }
{
    match f {
        Formula::Yes => into.extend_from_slice(b"true"),
        Formula::No => into.extend_from_slice(b"false"),
        Formula::At { side, local } => write_atom(a, b, *side, *local, into),
        Formula::Not(f) => write_behind(a, b, b"!", f, into),
        Formula::And(f, g) => write_pair(a, b, f, b" & ", g, into),
        Formula::Or(f, g) => write_pair(a, b, f, b" | ", g, into),
        Formula::Implies(f, g) => write_pair(a, b, f, b" -> ", g, into),
        Formula::Next { all, side, f } => {
            write_path(*all, into)?;
            into.push(b'X')?;
            write_side(*side, into)?;
            write_behind(a, b, b" ", f, into)
        }
        Formula::Always { all, f } => {
            write_path(*all, into)?;
            write_behind(a, b, b"G ", f, into)
        }
        Formula::Sometime { all, f } => {
            write_path(*all, into)?;
            write_behind(a, b, b"F ", f, into)
        }
        Formula::Until { all, weak, f, g } => {
            write_path(*all, into)?;
            write_behind(a, b, b"[", f, into)?;
            into.push(b' ')?;
            into.push(if *weak { b'W' } else { b'U' })?;
            write_behind(a, b, b" ", g, into)?;
            into.push(b']')?;
            Ok(())
        }
    }
}

/// A mark, and the formula behind it.
#[cycle(writer)]
fn write_behind(
    a: &[Name],
    b: &[Name],
    mark: &[u8],
    f: &Formula,
    into: &mut Vec<u8>,
) -> Result<(), AllocError>
    ensures { OnOk result (into.new.items ≡ into.old.items ++ mark.now ++ formula_text a.now b.now (form_of f.now)) }
{
    into.extend_from_slice(mark)?;
    write_formula(a, b, f, into)
}

/// Two formulas with a mark between them, in round parentheses.
#[cycle(writer)]
fn write_pair(
    a: &[Name],
    b: &[Name],
    f: &Formula,
    mark: &[u8],
    g: &Formula,
    into: &mut Vec<u8>,
) -> Result<(), AllocError>
    ensures { OnOk result (into.new.items ≡ into.old.items ++ codes "(" ++ formula_text a.now b.now (form_of f.now) ++ mark.now ++ formula_text a.now b.now (form_of g.now) ++ codes ")") }
{
    write_behind(a, b, b"(", f, into)?;
    write_behind(a, b, mark, g, into)?;
    into.push(b')')?;
    Ok(())
}

fn write_path(all: bool, into: &mut Vec<u8>) -> Result<(), AllocError>
    ensures { OnOk result (into.new.items ≡ into.old.items ++ path_letter all ∷ []) }
{
    into.push(if all { b'A' } else { b'E' })?;
    Ok(())
}

fn write_side(side: Option<Side>, into: &mut Vec<u8>) -> Result<(), AllocError>
    ensures { OnOk result (into.new.items ≡ into.old.items ++ side_letters side) }
{
    match side {
        None => Ok(()),
        Some(Side::A) => into.extend_from_slice(b"a"),
        Some(Side::B) => into.extend_from_slice(b"b"),
    }
}

fn write_atom(
    a: &[Name],
    b: &[Name],
    side: Side,
    local: u8,
    into: &mut Vec<u8>,
) -> Result<(), AllocError>
    ensures { OnOk result (into.new.items ≡ into.old.items ++ atom_text a.now b.now side local) }
{
    match side {
        Side::A => {
            into.extend_from_slice(b"a.")?;
            push_name(a, local, into)
        }
        Side::B => {
            into.extend_from_slice(b"b.")?;
            push_name(b, local, into)
        }
    }
}
