ghost use Rattle.std.specs.Prelude.{◌≡◌, ◌↔◌, [], length, map, IsTrue, IfOk};
ghost use Rattle.ctl_form.specs.Form.{form_of};

use crate::Formula;
use pair_structure::Memory;
use std::alloc::Global;
use std::marker::Model;

/// The clauses of a kind, in their order. Contracts see the formulas' trees, without where they lie in memory.
#[derive(Debug, Drop)]
pub struct Clauses {
    forms: Vec<Formula>,
}

impl Model for Clauses {
    ghost use Rattle.std.specs.Prelude.{List, map};
    ghost use Rattle.std.specs.Coded.{coded_list};
    ghost use Rattle.ctl_form.specs.Form.{Form, form_of};
    ghost use Rattle.ctl_form.specs.inside.CodeBack.{form_code};

    ghost Value = { List Form };

    ghost coded = { coded_list form_code };

    ghost view = { λ c. map form_of c.forms.items };
}

impl Clauses {
    pub fn from_vec(forms: Vec<Formula>) -> Clauses
        ensures { result ≡ map form_of forms.items }
    {
        Clauses { forms }
    }

    pub fn len(&self) -> usize
        ensures { result ≡ length self.now }
    {
        self.forms.len()
    }

    pub fn is_empty(&self) -> bool
        ensures { IsTrue result ↔ (self.now ≡ []) }
    {
        self.forms.is_empty()
    }

    pub fn as_slice(&self) -> &[Formula]
        ensures { map form_of result.now ≡ self.now }
    {
        &self.forms
    }

    /// Equal clauses. Linear in the sizes of the formulas.
    pub fn copy(&self, alloc: Global) -> Result<Clauses, Memory>
        ensures { IfOk result (λ made. made ≡ self.now) }
    {
        Ok(Clauses {
            forms: copies(alloc, &self.forms)?,
        })
    }
}

/// Equal formulas, in the same order.
pub(crate) fn copies(alloc: Global, forms: &[Formula]) -> Result<Vec<Formula>, Memory>
    ensures { IfOk result (λ made. map form_of made.items ≡ map form_of forms.now) }
{
    let mut made = Vec::with_capacity(alloc, forms.len())?;
    for form in forms {
        made.push(form.copy(alloc)?)?;
    }
    Ok(made)
}
