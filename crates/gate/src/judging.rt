// The judgement of a submission.
ghost use Rattle.std.specs.Prelude.{◌≡◌, ℕ, ◌^◌, ◌≤◌, ◌<◌, length, get_or, nat_lt, position};
ghost use Rattle.word.specs.Why.{why_of};
ghost use Rattle.word.specs.Reading.{why};
ghost use Rattle.word.specs.Lowest.{lowest};
ghost use Rattle.rules.specs.Map.{over_three};
ghost use Rattle.rules.specs.Reason.{submitted, size};
ghost use Rattle.rules.specs.Judging.{place_verdict, start_verdict, verdict_of, with_why};
ghost use Rattle.rules.specs.Outcomes.{NoSuchLengths, FirstRefuses, HandsIn, Judges};

use crate::map::{all_bits, is_marked, next_start};
use crate::permit::{LIST_BYTES, set_bits};
use crate::reason::at_mark;
use rules::{FirstRefused, Judgement, Pair, Reason, Submission, Unfit, Verdict};
use word::{Level, MOST_WORDS, Mode, Reading, Refusal, Setting, Why};

// Judges words, lent as little-endian bytes, with the map of their command starts and the list of
// permitted methods.
pub fn judge(level: u32, sli: bool, words: &[u8], map: &[u8], permit: &[u8]) -> Judgement
    ensures { Judges level sli words.now map.now permit.now result }
{
    match submit(MOST_WORDS, level, sli, words, map, permit) {
        Ok(submission) => Judgement {
            verdict: with_why(&submission, whole_verdict(&submission, map)),
            count: set_bits(permit),
        },
        Err(refusal) => Judgement {
            verdict: Err(Unfit::Refused { refusal }),
            count: 0,
        },
    }
}

// What is submitted in NV04-style, of at most so many words; or why there is nothing to judge.
pub fn submit<'a>(
    most: usize,
    level: u32,
    sli: bool,
    words: &'a [u8],
    map: &[u8],
    permit: &'a [u8],
) -> Result<Submission<'a>, Refusal>
    ensures { HandsIn most level sli words.now map.now permit.now result }
{
    let setting = Setting {
        level: Level { number: level },
        mode: Mode::NV04_STYLE,
        sli,
    };
    setting.check()?;
    if most.saturating_mul(4) < words.len() {
        return Err(Refusal::SIZE);
    }
    if no_such_lengths(words.len(), map.len(), permit.len()) {
        return Err(Refusal::LENGTH);
    }
    Ok(Submission {
        setting,
        words,
        permit,
    })
}

// A verdict for reason 3 says why the word at its place is reserved, for which that is read once more.
#[tactic(auto, using(rules::proofs::Verdicts::accepted_stays, rules::proofs::Verdicts::as_it_is, rules::proofs::Verdicts::other_reason, rules::proofs::Verdicts::reserved_reason))]
fn with_why(submission: &Submission, verdict: Verdict) -> Verdict
    ensures { result ≡ with_why (submitted submission.now) verdict }
{
    let Err(unfit) = verdict else {
        return verdict;
    };
    let Unfit::Rejected { reason, place } = unfit else {
        return verdict;
    };
    if reason != Reason::RESERVED {
        return verdict;
    }
    Err(Unfit::Reserved {
        why: why_of(submission.command_at(place as usize)),
        place,
    })
}

// The why of a reading, which no other than a reserved word's is asked for.
#[tactic(auto, using(rules::proofs::Readings::none_said, word::proofs::Told::why_with), unfolding(word::specs::Reading::why, word::specs::Why::why_of))]
fn why_of(reading: Reading) -> Why
    ensures { result ≡ why_of (why reading) }
{
    let Reading::Reserved { why } = reading else {
        return Why::Form;
    };
    why
}

// Whether the bytes are no whole words, or the map has not a byte for each, or the list is none.
pub fn no_such_lengths(words: usize, map: usize, permit: usize) -> bool
    ensures { NoSuchLengths words map permit result }
{
    words % 4 != 0 || map != words / 4 || permit != LIST_BYTES
}

// The verdict on a submission of sound sizes: the map's bytes first, then the start, then the pairs.
#[tactic(auto, using(rules::proofs::Verdicts::bytes_stand, rules::proofs::Verdicts::pairs_stand, rules::proofs::Verdicts::refused_within, rules::proofs::Verdicts::start_stands), unfolding(rules::specs::Judging::pair_verdict))]
fn whole_verdict(submission: &Submission, map: &[u8]) -> Verdict
    requires { (size (submitted submission.now) ≡ length map.now) × (length map.now < 2 ^ 32) }
    ensures { result ≡ verdict_of (submitted submission.now) map.now }
{
    bytes_verdict(map)?;
    start_verdict(map)?;
    match first_refused(submission, map) {
        None => Ok(()),
        Some(FirstRefused { reason, pair }) => Err(Unfit::Rejected {
            reason,
            place: pair.place as u32,
        }),
    }
}

// Reason 1, at the lowest place whose byte is over 3. Few maps have one, so that it is looked for only
// where all bytes together have a bit above 3.
#[tactic(auto, using(rules::proofs::AllBits::bits_narrow, rules::proofs::Verdicts::byte_met, rules::proofs::Verdicts::bytes_fine))]
fn bytes_verdict(map: &[u8]) -> Verdict
    requires { length map.now < 2 ^ 32 }
    ensures { result ≡ place_verdict (lowest (over_three map.now) (length map.now)) }
{
    if all_bits(map) < 4 {
        return Ok(());
    }
    match first_wide(map) {
        None => Ok(()),
        Some(place) => Err(Unfit::Rejected {
            reason: Reason::MAP_BYTE,
            place: place as u32,
        }),
    }
}

fn first_wide(map: &[u8]) -> Option<usize>
    ensures { result ≡ position (λ byte. nat_lt 3 byte) map.now }
{
    map.iter().position(|byte| 3 < *byte)
}

// Reason 2: where there is a word, the first is a start in main.
#[tactic(auto, unfolding(rules::specs::Judging::start_verdict, word::specs::First::choose))]
fn start_verdict(map: &[u8]) -> Verdict
    ensures { result ≡ start_verdict map.now }
{
    let first = Pair {
        place: 0,
        inside: false,
    };
    if map.is_empty() || is_marked(map, first) {
        return Ok(());
    }
    Err(Unfit::Rejected {
        reason: Reason::NO_START,
        place: 0,
    })
}

// The first pair that is refused: places rising, main before subroutine.
pub fn first_refused(submission: &Submission, map: &[u8]) -> Option<FirstRefused>
    ensures { FirstRefuses submission.now.setting submission.now.words.now map.now submission.now.permit.now result }
{
    let end = end_of_marks(submission, map);
    let mut place = next_start(map, 0, end);
    while place < end {
        for inside in [false, true] {
            let pair = Pair { place, inside };
            if let Some(reason) = at_mark(submission, map, pair) {
                return Some(FirstRefused { reason, pair });
            }
        }
        place = next_start(map, place + 1, end);
    }
    None
}

// The place from which on there is no word, or no mark.
fn end_of_marks(submission: &Submission, map: &[u8]) -> usize
    ensures { (result ≤ size (submitted submission.now)) × (result ≤ length map.now) × ((p : ℕ) → result ≤ p → p < size (submitted submission.now) → get_or map.now p 0 ≡ 0) }
{
    submission.size().min(map.len())
}
