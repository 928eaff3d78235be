ghost use Rattle.std.specs.Prelude.{◌↔◌, IsTrue};
ghost use Rattle.certificate_text.specs.State.{MayStand};
ghost use Rattle.certificate_text.specs.inside.Saying.{said};
ghost use Rattle.certificate_text.specs.inside.View.{group_of};

use crate::item::Item;
use crate::stars::Stars;
use waitfor_check::Star;

/// Which group of lines is open, with the star that has its members so far.
#[derive(Drop)]
pub(crate) enum Place {
    BeforeHead,
    AmongStars,
    InStar(Star),
    AfterDone,
}

/// The stars that are whole, the open group, and a list for the states of a line.
#[derive(Drop)]
pub(crate) struct Reader {
    pub made: Stars,
    pub place: Place,
    pub spare: Vec<u64>,
}

/// Whether the line may stand there.
pub(crate) fn may_stand(place: &Place, item: &Item<'_>) -> bool
    ensures { IsTrue result ↔ MayStand (group_of place.now) (said item.now) }
{
    match place {
        Place::BeforeHead => matches!(item, Item::Head),
        Place::AmongStars => matches!(item, Item::Star(_, _) | Item::Done),
        Place::InStar(star) => match item {
            Item::Member(states) => states.len() == star.shape.leaves.len(),
            Item::End => true,
            _ => false,
        },
        Place::AfterDone => false,
    }
}
