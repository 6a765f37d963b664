// The search.
ghost use Rattle.std.specs.Prelude.{◌≡◌, List, ◌*◌, ◌^◌, ◌≤◌, length};
ghost use Rattle.rules.specs.Reason.{submitted, size};
ghost use Rattle.rules.specs.Search.{Found, take_nth, found};
ghost use Rattle.search.specs.Room.{Holds};
ghost use Rattle.search.specs.Finding.{Becomes};
ghost use Rattle.search.specs.Outcomes.{Searches};

use crate::room::Room;
use gate::{NoMap, command_reason, nexts};
use rules::{Pair, Submission};
use word::{MOST_WORDS, Refusal};

// Finds what the words come to without any map, and from where: the front of the room, two entries a
// word, then holds it. Answers how many pairs it found. No pair is taken twice, so that the time grows
// linearly with the words and the counts of the commands that are reached.
pub fn search(submission: &Submission, room: &mut [u64]) -> Result<usize, Refusal>
    ensures { Searches submission.now.setting submission.now.words.now submission.now.permit.now room.old result room.new }
{
    if 4 * MOST_WORDS < submission.words.len() {
        return Err(Refusal::SIZE);
    }
    let pairs = 2 * submission.size();
    if room.len() < pairs {
        return Err(Refusal::ROOM);
    }
    Ok(search_in(submission, &mut room[..pairs]))
}

// The same in a room of two entries a word. Each turn takes one pair, in the order in which they were
// found; there are no more pairs than turns.
#[tactic(auto, using(crate::proofs::Taking::after_all, crate::proofs::Taking::after_none, crate::proofs::Taking::after_one, crate::proofs::Rooms::cleared))]
fn search_in(submission: &Submission, entries: &mut [u64]) -> usize
    requires { (length entries.old ≡ 2 * size (submitted submission.now)) × (size (submitted submission.now) ≤ 2 ^ 20) }
    ensures { Holds (found (submitted submission.now)) entries.new result }
{
    entries.fill(0);
    let turns = entries.len();
    let mut room = Room::begin(entries, submission.size());
    for turn in 0..turns {
        room.take_nth(submission, turn);
    }
    room.count
}

impl Room<'_> {
    // Takes the pair that was found as the n-th, if so many were: unless something speaks against it, its
    // next pairs are found. Inlined, since a call at each turn slows a search that finds little by a quarter.
    #[inline(always)]
    pub(crate) fn take_nth(&mut self, submission: &Submission, turn: usize)
        requires { self.old.end ≡ size (submitted submission.now) }
        ensures { Becomes (λ fs. take_nth (submitted submission.now) turn fs) self.old self.new }
    {
        if self.count <= turn {
            return;
        }
        let number = (self.entries[turn] / 0x1_0000_0000) as usize;
        let pair = Pair {
            place: number / 2,
            inside: number % 2 == 1,
        };
        let command = submission.command_at(pair.place);
        let next = nexts(command, pair.place as u32, pair.inside);
        if command_reason(submission, &NoMap, command, pair, next).is_some() {
            return;
        }
        self.find_each(number, next);
    }
}
