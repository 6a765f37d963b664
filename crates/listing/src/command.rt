// What a listing gives at a place of lent words, and the place after it.
ghost use Rattle.std.specs.Prelude.{◌≡◌, ◌<◌, ◌≤◌};
ghost use Rattle.listing.specs.Listing.{span, ends_at, item_of};
ghost use Rattle.listing.specs.Outcomes.{ListsAt};

use word::{Reading, Refusal, Setting, Why, read_at};

// Why there is no command: an end and which (K3), at a reserved word with its why; or why nothing is listed.
#[derive(Clone, Copy, PartialEq, Eq)]
pub enum End {
    Past,
    Reserved { why: Why },
    Short,
    Refused { refusal: Refusal },
}

// An item, which is a command or an end, and the place where the listing goes on: at an end it stays.
#[derive(Clone, Copy)]
pub struct Listed {
    pub item: Result<Reading, End>,
    pub place: usize,
}

// The item at a place. What stands there is read as one word, and only its parameters are passed over.
#[tactic(auto, using(crate::proofs::Items::by_place, crate::proofs::Items::inside), unfolding(crate::proofs::Items::listed))]
pub fn list_at(setting: Setting, words: &[u32], place: usize) -> Listed
    ensures { ListsAt setting words.now place result }
{
    match read_at(setting, words, place) {
        Ok(Some(reading)) => item_of(reading, words.len(), place),
        Ok(None) => ends_at(place, End::Past),
        Err(refusal) => ends_at(place, End::Refused { refusal }),
    }
}

fn ends_at(place: usize, end: End) -> Listed
    ensures { result ≡ ends_at place end }
{
    Listed {
        item: Err(end),
        place,
    }
}

// The item that a reading is, at a place of so many words.
#[tactic(auto, using(word::proofs::First::choose_false, word::proofs::First::choose_true, crate::proofs::Items::not_reserved, word::proofs::Told::why_with), unfolding(crate::specs::Listing::item_of, word::specs::First::choose, word::specs::Reading::number, word::specs::Reading::why))]
fn item_of(reading: Reading, words: usize, place: usize) -> Listed
    requires { (place < words) × (words ≤ 1048576) }
    ensures { result ≡ item_of reading words place }
{
    if let Reading::Reserved { why } = reading {
        return ends_at(place, End::Reserved { why });
    }
    let span = span_of(reading);
    if words - place < span {
        return ends_at(place, End::Short);
    }
    Listed {
        item: Ok(reading),
        place: place + span,
    }
}

// How many words a command takes: its own, and its parameters.
#[tactic(auto, using(crate::proofs::Items::span_bare), unfolding(crate::specs::Listing::span, word::specs::Reading::parameter_count, word::specs::Writing::own_words, word::specs::Writing::next_word, word::specs::Reading::form, word::specs::Reading::number, word::specs::Form::forms, word::specs::Form::increasing, word::specs::Form::non_increasing, word::specs::Form::long))]
fn span_of(reading: Reading) -> usize
    ensures { result ≡ span reading }
{
    match reading {
        Reading::Increasing { count, .. } => 1 + count as usize,
        Reading::NonIncreasing { count, .. } => 1 + count as usize,
        Reading::Long { count, .. } => 2 + count as usize,
        _ => 1,
    }
}
