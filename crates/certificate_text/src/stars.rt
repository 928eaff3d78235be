ghost use Rattle.std.specs.Prelude.{◌≡◌, ◌++◌, ◌∷◌, ◌↔◌, [], IfOk, IsTrue, OnOk};
ghost use Rattle.waitfor_check.specs.Accepted.{HasShape};
ghost use Rattle.certificate_text.specs.inside.ShapeKeys.{IsWithKey};

use crate::key::key_of;
use interconnection::Shape;
use std::alloc::{AllocError, Global};
use std::collections::BTreeSet;
use std::marker::Model;
use waitfor_check::Star;

/// Stars that are whole, to be found by their shapes. Contracts see the list.
#[derive(Drop)]
pub(crate) struct Stars {
    list: Vec<Star>,
    keys: BTreeSet<Vec<u64>>,
}

impl Model for Stars {
    ghost use Rattle.std.specs.Prelude.{List};
    ghost use Rattle.certificate_text.specs.inside.ShapeKeys.{AreKeysOf};
    ghost use Rattle.waitfor_check.specs.declared.star.Star.{Star};

    ghost Value = { List Star };

    ghost view = { λ s. s.list.items };

    ghost invariant = { λ s. AreKeysOf s.list.items s.keys };
}

impl Stars {
    /// No star yet.
    pub(crate) fn new(alloc: Global) -> Stars
        ensures { result ≡ [] }
    {
        Stars {
            list: Vec::new(alloc),
            keys: BTreeSet::new(alloc),
        }
    }

    /// Whether some star has this shape. Logarithmic in the stars.
    pub(crate) fn has(&self, alloc: Global, shape: &Shape) -> Result<bool, AllocError>
        ensures { IfOk result (λ has. IsTrue has ↔ HasShape self.now shape.now) }
    {
        let key = key_of(alloc, shape)?;
        Ok(self.keys.contains(key.as_slice()))
    }

    /// The stars with one more. Logarithmic in their count.
    pub(crate) fn with(self, alloc: Global, star: Star) -> Result<Stars, AllocError>
        ensures { IfOk result (λ made. made ≡ self ++ star ∷ []) }
    {
        let Stars { mut list, mut keys } = self;
        let key = key_of(alloc, &star.shape)?;
        add_key(&mut keys, key)?;
        list.push(star)?;
        Ok(Stars { list, keys })
    }

    /// The same, as a list of its own.
    pub(crate) fn into_vec(self) -> Vec<Star>
        ensures { result.items ≡ self }
    {
        self.list
    }
}

/// The keys with this one.
fn add_key(keys: &mut BTreeSet<Vec<u64>>, key: Vec<u64>) -> Result<(), AllocError>
    ensures { OnOk result (IsWithKey keys.old key.items keys.new) }
{
    keys.insert(key)?;
    Ok(())
}
