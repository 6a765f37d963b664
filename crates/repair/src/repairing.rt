// The repair.
ghost use Rattle.std.specs.Prelude.{◌≡◌, ◌*◌, ◌≤◌, length};
ghost use Rattle.rules.specs.Reason.{submitted, size};
ghost use Rattle.repair.specs.Repairing.{room_refused, Mends};
ghost use Rattle.repair.specs.Outcomes.{to_repair, Repairs};

use crate::marks::rewrite;
use gate::submit;
use rules::Submission;
use search::search;
use word::Refusal;

// The most words that are repaired.
const MOST_REPAIRED: usize = 8192;

// Writes the exact map of words, lent as little-endian bytes, over the author's, and lists each byte that
// changed. The list's room has an entry a word or more, the work room two. Answers how many bytes of the
// map changed, or why none did.
pub fn repair(
    level: u32,
    sli: bool,
    words: &[u8],
    map: &mut [u8],
    permit: &[u8],
    list: &mut [u64],
    work: &mut [u64],
) -> Result<usize, Refusal>
    ensures { Repairs level sli (to_repair words.now map.old permit.now list.old work.old) result map.new list.new work.new }
{
    let submission = submit(MOST_REPAIRED, level, sli, words, map, permit)?;
    if no_room(words.len(), list.len(), work.len()) {
        return Err(Refusal::ROOM);
    }
    Ok(mend(&submission, map, list, work))
}

// Searches, and goes by what was found. Answers how many bytes changed.
fn mend(submission: &Submission, map: &mut [u8], list: &mut [u64], work: &mut [u64]) -> usize
    requires { (size (submitted submission.now) ≡ length map.old) × (length map.old ≤ 8192) × (length map.old ≤ length list.old) × (2 * length map.old ≤ length work.old) }
    ensures { Mends (submitted submission.now) map.old list.old work.old map.new list.new work.new result }
{
    // Whatever the search would refuse, the repair has refused before.
    let _ = search(submission, work);
    let pairs = 2 * map.len();
    rewrite(map, list, &mut work[..pairs])
}

// Whether either room has too few entries for words of so many bytes.
fn no_room(words: usize, list: usize, work: usize) -> bool
    ensures { result ≡ room_refused words list work }
{
    list < words / 4 || work < 2 * (words / 4)
}
