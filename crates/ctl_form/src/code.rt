ghost use Rattle.std.specs.Prelude.{◌≡◌, ◌++◌, [], IfOk, OnOk};
ghost use Rattle.ctl_form.specs.Code.{numbers, bit, side_digit, one_digit};
ghost use Rattle.ctl_form.specs.Form.{form_of};

use crate::Formula;
use pair_structure::{Memory, Side};
use std::alloc::Global;

/// A formula as bytes, by which formulas are told apart and ordered. Linear in its size.
pub(crate) fn code_of(alloc: Global, f: &Formula) -> Result<Vec<u8>, Memory>
    ensures { IfOk result (λ code. code.items ≡ numbers (form_of f.now)) }
{
    let mut code = Vec::new(alloc);
    push_code(f, &mut code)?;
    Ok(code)
}

#[cycle(coding)]
fn push_code(f: &Formula, code: &mut Vec<u8>) -> Result<(), Memory>
    ensures { OnOk result (code.new.items ≡ code.old.items ++ numbers (form_of f.now)) }
{
    match f {
        Formula::Yes => push_bytes(&[0], code),
        Formula::No => push_bytes(&[1], code),
        Formula::At { side, local } => push_bytes(&[2, side_of(*side), *local], code),
        Formula::Not(f) => push_one(&[3], f, code),
        Formula::And(f, g) => push_both(&[4], f, g, code),
        Formula::Or(f, g) => push_both(&[5], f, g, code),
        Formula::Implies(f, g) => push_both(&[6], f, g, code),
        Formula::Next { all, side, f } => {
            push_one(&[7, bit_of(*all), any_side_of(*side)], f, code)
        }
        Formula::Always { all, f } => push_one(&[8, bit_of(*all)], f, code),
        Formula::Sometime { all, f } => push_one(&[9, bit_of(*all)], f, code),
        Formula::Until { all, weak, f, g } => {
            push_both(&[10, bit_of(*all), bit_of(*weak)], f, g, code)
        }
    }
}

fn push_bytes(bytes: &[u8], code: &mut Vec<u8>) -> Result<(), Memory>
    ensures { OnOk result (code.new.items ≡ code.old.items ++ bytes.now) }
{
    code.extend_from_slice(bytes)?;
    Ok(())
}

/// What an operator says, and then its part.
#[cycle(coding)]
fn push_one(says: &[u8], f: &Formula, code: &mut Vec<u8>) -> Result<(), Memory>
    ensures { OnOk result (code.new.items ≡ code.old.items ++ (says.now ++ numbers (form_of f.now))) }
{
    code.extend_from_slice(says)?;
    push_code(f, code)?;
    Ok(())
}

/// What an operator says, and then its two parts.
#[cycle(coding)]
fn push_both(says: &[u8], f: &Formula, g: &Formula, code: &mut Vec<u8>) -> Result<(), Memory>
    ensures { OnOk result (code.new.items ≡ code.old.items ++ (says.now ++ (numbers (form_of f.now) ++ numbers (form_of g.now)))) }
{
    code.extend_from_slice(says)?;
    push_code(f, code)?;
    push_code(g, code)?;
    Ok(())
}

fn bit_of(is: bool) -> u8
    ensures { result ≡ bit is }
{
    match is {
        true => 1,
        false => 0,
    }
}

fn side_of(side: Side) -> u8
    ensures { result ≡ one_digit side }
{
    match side {
        Side::A => 0,
        Side::B => 1,
    }
}

fn any_side_of(side: Option<Side>) -> u8
    ensures { result ≡ side_digit side }
{
    match side {
        None => 0,
        Some(Side::A) => 1,
        Some(Side::B) => 2,
    }
}
