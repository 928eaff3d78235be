ghost use Rattle.std.specs.Prelude.{◌≡◌, ◌++◌, OnOk, IfOk, map};
ghost use Rattle.ctl_form.specs.Form.{form_of};
ghost use Rattle.ctl_form.specs.Kind.{free_form, free_forms, whole_forms};

use crate::Formula;
use crate::clauses::copies;
use pair_structure::{LocalArc, Memory, Role, Side};
use std::alloc::Global;

/// The formulas that a kind of these clauses asks for: copies of the clauses, then those of the free arcs of side a, then those of side b,
/// in the roles' order. Linear in the sizes of the clauses and the count of arcs.
pub fn whole(alloc: Global, clauses: &[Formula], a: &Role, b: &Role) -> Result<Vec<Formula>, Memory>
    ensures { IfOk result (λ forms. map form_of forms.items ≡ whole_forms a.now b.now (map form_of clauses.now)) }
{
    let mut forms = copies(alloc, clauses)?;
    push_free(alloc, &mut forms, Side::A, a.arcs())?;
    push_free(alloc, &mut forms, Side::B, b.arcs())?;
    Ok(forms)
}

/// Adds the formula of each free arc of a side.
fn push_free(
    alloc: Global,
    forms: &mut Vec<Formula>,
    side: Side,
    arcs: &[LocalArc],
) -> Result<(), Memory>
    ensures { OnOk result (map form_of forms.new.items ≡ map form_of forms.old.items ++ free_forms side arcs.now) }
{
    for arc in arcs {
        if arc.free {
            forms.push(free_arc(alloc, side, *arc)?)?;
        }
    }
    Ok(())
}

/// That wherever the side is at the arc's beginning, some move of the side takes the arc.
fn free_arc(alloc: Global, side: Side, arc: LocalArc) -> Result<Formula, Memory>
    ensures { IfOk result (λ form. form_of form ≡ free_form side arc) }
{
    let from = Formula::At {
        side,
        local: arc.from,
    };
    let to = Formula::At {
        side,
        local: arc.to,
    };
    let taken = Formula::Next {
        all: false,
        side: Some(side),
        f: Box::new(alloc, to)?,
    };
    let onward = Formula::Implies(Box::new(alloc, from)?, Box::new(alloc, taken)?);
    Ok(Formula::Always {
        all: true,
        f: Box::new(alloc, onward)?,
    })
}
