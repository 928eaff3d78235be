ghost use Rattle.std.specs.Prelude.{◌≡◌, ◌↔◌, ◌<◌, IsTrue, length};
ghost use Rattle.ctl_text.specs.declared.format.Format.TheVariants.{Second};
ghost use Rattle.ctl_text.specs.State.{MayStand, among_kinds, in_role, nothing};
ghost use Rattle.ctl_text.specs.inside.View.{group_of, parts_of, said, state_of};

use crate::format::Format;
use crate::item::Item;
use crate::open_role::OpenRole;
use crate::pairs::Pairs;
use crate::sets::Sets;
use ctl_form::Formula;
use interconnection::{Edges, Processes};
use pair_structure::Name;
use std::alloc::Global;

/// Which group of lines is open, with what an open role or kind has so far.
#[derive(Drop)]
pub(crate) enum Place {
    BeforeHead,
    AmongRoles,
    InRole(OpenRole),
    AmongKinds,
    InKind {
        name: Name,
        role_a: u8,
        role_b: u8,
        clauses: Vec<Formula>,
    },
    AmongProcesses,
    AmongEdges,
    AfterDone,
}

/// The format of the text, what has been declared so far, with the sets of each role, and the open group.
#[derive(Drop)]
pub(crate) struct Reader {
    pub format: Format,
    pub pairs: Pairs,
    pub sets: Vec<Sets>,
    pub processes: Processes,
    pub edges: Edges,
    pub place: Place,
}

impl Reader {
    /// Nothing is declared so far.
    pub(crate) fn new(alloc: Global, format: Format, place: Place) -> Reader
        ensures { state_of result ≡ record { parts = nothing format; group = group_of place } }
    {
        Reader {
            format,
            pairs: Pairs::new(alloc),
            sets: Vec::new(alloc),
            processes: Processes::new(alloc),
            edges: Edges::new(alloc),
            place,
        }
    }
}

/// Whether the line may stand there.
pub(crate) fn may_stand(place: &Place, item: Item<'_>) -> bool
    ensures { IsTrue result ↔ MayStand (group_of place.now) (said item.entry) }
{
    match place {
        Place::BeforeHead => matches!(item, Item::Head(_)),
        Place::AmongRoles => matches!(item, Item::Role(_)) || may_follow_roles(item),
        Place::InRole(role) => may_stand_in(role, item),
        Place::AmongKinds => may_follow_roles(item),
        Place::InKind { .. } => matches!(item, Item::End),
        Place::AmongProcesses => {
            matches!(item, Item::Process { .. } | Item::Edge { .. } | Item::Done)
        }
        Place::AmongEdges => matches!(item, Item::Edge { .. } | Item::Done),
        Place::AfterDone => false,
    }
}

/// Whether the line may stand in the open role.
fn may_stand_in(role: &OpenRole, item: Item<'_>) -> bool
    ensures { IsTrue result ↔ MayStand (in_role (parts_of role.now)) (said item.entry) }
{
    match item {
        Item::Local(_) => role.starts.is_empty(),
        Item::Start(_) => may_start(role),
        Item::Set { .. } => may_have_set(role),
        Item::Arc { .. } | Item::End => !role.starts.is_empty(),
        _ => false,
    }
}

fn may_start(role: &OpenRole) -> bool
    ensures { IsTrue result ↔ ((0 < length role.now.locals.items) × (length role.now.sets ≡ 0) × (length role.now.arcs.items ≡ 0)) }
{
    !role.locals.is_empty() && role.sets.as_slice().is_empty() && role.arcs.is_empty()
}

fn may_have_set(role: &OpenRole) -> bool
    ensures { IsTrue result ↔ ((role.now.format ≡ Second) × (0 < length role.now.starts.items) × (length role.now.arcs.items ≡ 0)) }
{
    role.format == Format::Second && !role.starts.is_empty() && role.arcs.is_empty()
}

/// Whether the line may stand after the roles.
fn may_follow_roles(item: Item<'_>) -> bool
    ensures { IsTrue result ↔ MayStand among_kinds (said item.entry) }
{
    matches!(
        item,
        Item::Kind { .. } | Item::Process { .. } | Item::Edge { .. } | Item::Done
    )
}
