ghost use Rattle.std.specs.Prelude.{◌≡◌, ◌<◌, ℕ, length, map, All, MatchOption, MatchResult};
ghost use Rattle.ctl_form.specs.Closure.{opening, IsGrown};
ghost use Rattle.ctl_form.specs.Form.{form_of};
ghost use Rattle.ctl_form.specs.Members.{part_at, forms_of};
ghost use Rattle.ctl_form.specs.MemberTable.{IsNumbering, IsFaultOf};
ghost use Rattle.ctl_form.specs.NormalParts.{AreNormalParts};
ghost use Rattle.ctl_form.specs.Numbered.{IsNormalOf, IsRefusalOf, normals};
ghost use Rattle.ctl_form.specs.inside.Roots.{AreRoots};
ghost use Rattle.ctl_form.specs.Walk.{walk_all};

use crate::members::Members;
use crate::{Formula, NormalFault, Part};
use std::alloc::Global;
use std::marker::Model;

/// Formulas in normal form with the members of their closure, each by its part. Members are named by numbers below the count: 0 to 3 are
/// true, false, EXa true and EXb true, and a member's parts have lower numbers than it has.
#[derive(Drop)]
pub struct Normal {
    members: Members,
    roots: Vec<u32>,
}

impl Model for Normal {
    ghost use Rattle.ctl_form.specs.NormalParts.{NormalParts, AreNormalParts};

    ghost Value = { NormalParts };

    ghost view = { λ n. record { parts = n.members; roots = n.roots.items } };

    ghost invariant = { λ n. AreNormalParts n.members n.roots.items };
}

impl Normal {
    /// The closure of the conjuncts' normal forms (Emerson and Clarke 1982, with next-times of one side). Over exactly where it has more than
    /// `MAX_MEMBERS` members. One look-up among the members for each operator of the normal forms, and a second for each new member.
    pub fn of(alloc: Global, conjuncts: &[Formula]) -> Result<Normal, NormalFault>
        ensures { let forms = map form_of conjuncts.now in MatchResult result (IsNormalOf forms) (IsRefusalOf forms) }
    {
        let mut members = opened(alloc)?;
        let roots = roots_of(alloc, &mut members, conjuncts)?;
        // tells that the members are numbered
        let _numbered = members.parts();
        Ok(Normal { members, roots })
    }

    /// The number of members.
    pub fn count(&self) -> u32
        ensures count { result ≡ length self.now.parts }
        ensures numbering { IsNumbering self.now.parts }
        ensures closed { AreNormalParts self.now.parts self.now.roots }
    {
        self.members.parts().len() as u32
    }

    /// The root of each conjunct, in their order.
    pub fn roots(&self) -> &[u32]
        ensures same { result.now ≡ self.now.roots }
        ensures members { All (λ root. root < length self.now.parts) self.now.roots }
    {
        &self.roots
    }

    /// What the member is built of.
    pub fn part(&self, member: u32) -> Part
        requires { member < length self.now.parts }
        ensures { result ≡ part_at self.now.parts member }
    {
        self.members.parts()[member as usize]
    }

    /// The member with this part, if there is one. Logarithmic in the count.
    pub fn find(&self, part: Part) -> Option<u32>
        ensures { MatchOption result ((n : ℕ) → n < length self.now.parts → part_at self.now.parts n ≡ part → ⊥)
            (λ n. (n < length self.now.parts) × (part_at self.now.parts n ≡ part)) }
    {
        self.members.find(part)
    }
}

/// The members that each closure has.
fn opened(alloc: Global) -> Result<Members, NormalFault>
    ensures { MatchResult result (λ members. forms_of members ≡ opening) (IsFaultOf opening) }
{
    let mut members = Members::new(alloc);
    members.note_opening()?;
    Ok(members)
}

/// The roots of the formulas, walked one after another.
fn roots_of(
    alloc: Global,
    members: &mut Members,
    conjuncts: &[Formula],
) -> Result<Vec<u32>, NormalFault>
    requires { IsGrown (forms_of members.old) }
    ensures { let forms = normals (map form_of conjuncts.now) in
        MatchResult result (λ roots. AreRoots forms members.old members.new roots.items) (IsFaultOf (walk_all forms (forms_of members.old))) }
{
    let mut roots = Vec::with_capacity(alloc, conjuncts.len())?;
    for conjunct in conjuncts {
        let root = members.root_of(conjunct, true)?;
        roots.push(root)?;
    }
    Ok(roots)
}
