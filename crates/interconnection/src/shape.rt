ghost use Rattle.std.specs.Prelude.{◌≡◌};
ghost use Rattle.interconnection.specs.Shape.{rank};

use pair_structure::Side;
use std::marker::Model;

/// A role with some of the labels of a process's edges: the kind of an edge, and the process's own side. Labels are
/// sorted by kind, then a before b (this project).
#[derive(Debug, Drop)]
pub struct Shape {
    pub role: u8,
    pub leaves: Vec<(u8, Side)>,
}

impl Model for Shape {
    ghost use Rattle.interconnection.specs.Shape.{ShapeParts};

    ghost Value = { ShapeParts };

    ghost view = { λ s. record { role = s.role; leaves = s.leaves.items } };
}

/// The place of a label in the order of labels.
pub(crate) fn rank(label: (u8, Side)) -> u32
    ensures { result ≡ rank label }
{
    let side = match label.1 {
        Side::A => 0,
        Side::B => 1,
    };
    2 * (label.0 as u32) + side
}
