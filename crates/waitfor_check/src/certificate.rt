ghost use Rattle.std.specs.Prelude.{◌≡◌, ◌↔◌, IfOk, IsTrue};
ghost use Rattle.waitfor_check.specs.Fitting.{Fits};
ghost use Rattle.waitfor_check.specs.inside.ShapeKeys.{IsIndex};

use crate::fitting::{all_rise, stars_fit};
use crate::numbers::Numbers;
use crate::shape_index::index_of;
use crate::star::Star;
use conjunctive_compose::System;
use pair_structure::Memory;
use std::alloc::Global;
use std::marker::Model;

/// The stars of a system, each with the star states that it may show; and their shapes in order, so that none is
/// searched for one by one.
#[derive(Debug, Drop)]
pub struct Certificate {
    stars: Vec<Star>,
    keys: Vec<Numbers>,
}

impl Model for Certificate {
    ghost use Rattle.std.specs.Prelude.{List};
    ghost use Rattle.waitfor_check.specs.declared.star.Star.{Star};
    ghost use Rattle.waitfor_check.specs.inside.ShapeKeys.{IsIndex};

    ghost Value = { List Star };

    ghost view = { λ c. c.stars.items };

    ghost invariant = { λ c. IsIndex c.stars.items c.keys.items };
}

impl Certificate {
    /// The certificate of these stars. Stars times their logarithm.
    pub fn make(alloc: Global, stars: Vec<Star>) -> Result<Certificate, Memory>
        ensures { IfOk result (λ c. c ≡ stars.items) }
    {
        let keys = index_of(alloc, &stars)?;
        Ok(Certificate { stars, keys })
    }

    /// The stars, in their order.
    pub fn stars(&self) -> &[Star]
        ensures { result.now ≡ self.now }
    {
        &self.stars
    }

    /// Their shapes as lists of numbers, sorted.
    pub(crate) fn keys(&self) -> &[Numbers]
        ensures { IsIndex self.now result.now }
    {
        &self.keys
    }

    /// Whether it is one of the system: its roles, kinds and states exist, labels are sorted, members rise, and no
    /// shape stands twice. Takes no memory; linear in members and their leaves, and in stars and theirs.
    pub fn fits(&self, system: &System) -> bool
        ensures { IsTrue result ↔ Fits system.now self.now }
    {
        if !stars_fit(system, &self.stars) {
            return false;
        }
        all_rise(&self.keys)
    }
}
