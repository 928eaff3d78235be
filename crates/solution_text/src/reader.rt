ghost use Rattle.std.specs.Prelude.{◌↔◌, IsTrue};
ghost use Rattle.solution_text.specs.State.{MayStand};
ghost use Rattle.solution_text.specs.inside.View.{group_of, said};

use crate::item::Item;
use ctl_form::PairSpec;
use pair_structure::{Move, PairStructure, Role};

/// Which group of lines is open, with the states and moves that an open kind has so far.
#[derive(Drop)]
pub(crate) enum Place<'a> {
    BeforeHead,
    AmongKinds,
    InKind {
        a: &'a Role,
        b: &'a Role,
        states: Vec<(u8, u8)>,
        moves: Vec<Move>,
    },
    AfterDone,
}

/// The structures so far, the kinds that are left, and the open group.
#[derive(Drop)]
pub(crate) struct Reader<'a> {
    pub made: Vec<PairStructure>,
    pub left: &'a [PairSpec],
    pub place: Place<'a>,
}

/// Whether the line may stand there.
pub(crate) fn may_stand(place: &Place<'_>, left: &[PairSpec], item: Item<'_>) -> bool
    ensures { IsTrue result ↔ MayStand (group_of place.now) left.now (said item.entry) }
{
    match place {
        Place::BeforeHead => matches!(item, Item::Head),
        Place::AmongKinds => match item {
            Item::Kind(_) => !left.is_empty(),
            Item::Done => left.is_empty(),
            _ => false,
        },
        Place::InKind { moves, .. } => match item {
            Item::State(_, _) => moves.is_empty(),
            Item::Step(_) | Item::End => true,
            _ => false,
        },
        Place::AfterDone => false,
    }
}
