ghost use Rattle.std.specs.Prelude.{◌≡◌};
ghost use Rattle.solution_text.specs.SolutionText.{AreOver};

use ctl_text::Spec;
use pair_structure::PairStructure;
use std::marker::Model;

/// A solution: a pair structure for each kind of a specification, in the order of the kinds, over the kind's two roles.
#[derive(Debug, Drop)]
pub struct Solution {
    structures: Vec<PairStructure>,
}

impl Model for Solution {
    ghost use Rattle.std.specs.Prelude.{List};
    ghost use Rattle.pair_structure.specs.Structure.{Structure};

    ghost Value = { List Structure };

    ghost view = { λ s. s.structures.items };
}

impl Solution {
    /// The solution of this specification with these structures.
    pub fn make(_spec: &Spec, structures: Vec<PairStructure>) -> Solution
        requires { AreOver _spec.now.roles _spec.now.kinds structures.items }
        ensures { result ≡ structures.items }
    {
        Solution { structures }
    }

    /// The structure of each kind.
    pub fn structures(&self) -> &[PairStructure]
        ensures { result.now ≡ self.now }
    {
        &self.structures
    }
}
