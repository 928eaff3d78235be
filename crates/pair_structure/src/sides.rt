ghost use Rattle.std.specs.Prelude.{◌≡◌};
ghost use Rattle.pair_structure.specs.Sides.{arcs_of, local_of, opposite, role_of, with_local};

use crate::{LocalArc, Role, Side};

/// The other side.
pub fn opposite(side: Side) -> Side
    ensures { result ≡ opposite side }
{
    match side {
        Side::A => Side::B,
        Side::B => Side::A,
    }
}

/// The local state of the side in the label.
pub fn local_of(side: Side, label: (u8, u8)) -> u8
    ensures { result ≡ local_of side label }
{
    match side {
        Side::A => label.0,
        Side::B => label.1,
    }
}

/// The label with this local state of the side; that of the other side stays.
pub fn with_local(side: Side, label: (u8, u8), local: u8) -> (u8, u8)
    ensures { result ≡ with_local side label local }
{
    match side {
        Side::A => (local, label.1),
        Side::B => (label.0, local),
    }
}

/// The role of the side.
pub fn role_of<'a>(side: Side, a: &'a Role, b: &'a Role) -> &'a Role
    ensures { result.now ≡ role_of side a.now b.now }
{
    match side {
        Side::A => a,
        Side::B => b,
    }
}

/// The arcs of the side's role.
pub fn arcs_of<'a>(side: Side, a: &'a Role, b: &'a Role) -> &'a [LocalArc]
    ensures { result.now ≡ arcs_of side a.now b.now }
{
    match side {
        Side::A => a.arcs(),
        Side::B => b.arcs(),
    }
}
