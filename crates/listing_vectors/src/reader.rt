// One step of the listing reader, from a place: what `list_at` says of it.
ghost use Rattle.listing.specs.Outcomes.{ListsAt};

use listing::{Listed, Listing};
use word::Setting;

// Its contract says nothing of a reader: it is `list_at`'s.
pub fn through_reader(setting: Setting, words: &[u32], place: usize) -> Listed
    ensures { ListsAt setting words.now place result }
{
    let mut reader = Listing { words, place };
    let item = reader.next(setting);
    Listed {
        item,
        place: reader.place,
    }
}
