ghost use Rattle.std.specs.Prelude.{◌≡◌, ◌++◌, ◌∷◌, [], IfOk, length};
ghost use Rattle.ctl_form.specs.Numbered.{IsNormalOf};
ghost use Rattle.ctl_text.specs.Normals.{conjuncts_of, AreNormals};
ghost use Rattle.ctl_text.specs.SoundValue.{IsOverRoles};
ghost use Rattle.ctl_text.specs.inside.Pairs.{PairsParts};

use ctl_form::{Normal, PairSpec};
use pair_structure::Role;
use std::alloc::{AllocError, Global};
use std::marker::Model;

/// The roles and the kinds that are declared so far, and of each kind its normal form.
#[derive(Drop)]
pub(crate) struct Pairs {
    roles: Vec<Role>,
    kinds: Vec<PairSpec>,
    normals: Vec<Normal>,
}

impl Model for Pairs {
    ghost use Rattle.std.specs.Coded.{codes};
    ghost use Rattle.ctl_form.specs.inside.CodeBack.{form_code};
    ghost use Rattle.ctl_text.specs.inside.Pairs.{PairsParts, ArePairs};

    ghost Value = { PairsParts };

    ghost coded = { Prim.hlevel (codes, form_code) };

    ghost view = { λ p. record { roles = p.roles.items; kinds = p.kinds.items } };

    ghost invariant = { λ p. ArePairs p.roles.items p.kinds.items p.normals.items };
}

impl Pairs {
    pub(crate) fn new(alloc: Global) -> Pairs
        ensures { result ≡ record { roles = []; kinds = [] } }
    {
        Pairs {
            roles: Vec::new(alloc),
            kinds: Vec::new(alloc),
            normals: Vec::new(alloc),
        }
    }

    pub(crate) fn roles(&self) -> &[Role]
        ensures { result.now ≡ self.now.roles }
    {
        &self.roles
    }

    pub(crate) fn kinds(&self) -> &[PairSpec]
        ensures { result.now ≡ self.now.kinds }
    {
        &self.kinds
    }

    /// With one more role.
    pub(crate) fn with_role(self, role: Role) -> Result<Pairs, AllocError>
        ensures { IfOk result (λ made. made ≡ record { roles = self.roles ++ role ∷ []; kinds = self.kinds }) }
    {
        let Pairs {
            mut roles,
            kinds,
            normals,
        } = self;
        roles.push(role)?;
        Ok(Pairs {
            roles,
            kinds,
            normals,
        })
    }

    /// With one more kind, which has this normal form.
    pub(crate) fn with_kind(self, kind: PairSpec, normal: Normal) -> Result<Pairs, AllocError>
        requires over { IsOverRoles (length self.roles) kind }
        requires normal { IsNormalOf (conjuncts_of self.roles kind) normal }
        ensures { IfOk result (λ made. made ≡ record { roles = self.roles; kinds = self.kinds ++ kind ∷ [] }) }
    {
        let Pairs {
            roles,
            mut kinds,
            mut normals,
        } = self;
        kinds.push(kind)?;
        normals.push(normal)?;
        Ok(Pairs {
            roles,
            kinds,
            normals,
        })
    }

    /// The roles, the kinds and the normal forms.
    pub(crate) fn into_parts(self) -> (Vec<Role>, Vec<PairSpec>, Vec<Normal>)
        ensures roles { result.0.items ≡ self.roles }
        ensures kinds { result.1.items ≡ self.kinds }
        ensures normals { AreNormals self.roles self.kinds result.2.items }
    {
        (self.roles, self.kinds, self.normals)
    }
}
