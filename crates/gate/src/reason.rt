// Why words are not passed on: the reasons at one pair of a place and a state.
ghost use Rattle.std.specs.Prelude.{◌≡◌, not, ◌&&◌, ◌+◌, ◌<◌, [], ◌∷◌, ltb};
ghost use Rattle.word.specs.First.{first, ◌when◌};
ghost use Rattle.word.specs.Reading.{parameter_count};
ghost use Rattle.rules.specs.Reason.{MARKED_PARAMETER, submitted, size, reserved?, call?, return?, next_cases, finding_of};
ghost use Rattle.rules.specs.Judging.{at_mark};
ghost use Rattle.rules.specs.Next.{pair_in, pairs_in};
ghost use Rattle.rules.specs.Outcomes.{FindsOwn, Arrives, FindsAt};

use crate::map::{Map, Marks, is_marked};
use crate::next::next_pairs;
use crate::parameters::{Parameters, parameter_count};
use rules::{Nexts, Pair, Reason, Submission};
use word::Reading;

// What speaks against the command at a pair that the map marks. Where nothing does, no parameter is marked
// as a start, so that no word is looked at as a parameter of two commands in one state: over all places
// the time grows linearly with the words, whatever the map, and the first reason ends it.
#[tactic(auto, using(rules::proofs::Findings::at_command, rules::proofs::NextLaws::held_pairs, rules::proofs::Findings::unmarked_none, word::proofs::Bytes::words_length))]
pub(crate) fn at_mark(submission: &Submission, map: &[u8], pair: Pair) -> Option<Reason>
    requires { pair.place < size (submitted submission.now) }
    ensures { result ≡ finding_of (at_mark (submitted submission.now) map.now pair.place pair.inside) }
{
    if !is_marked(map, pair) {
        return None;
    }
    // Where the words go on is taken from the command at once, while its form is at hand.
    let command = submission.command_at(pair.place);
    let next = next_pairs(command, pair);
    command_reason(submission, &Map(map), command, pair, next)
}

// What speaks against a command at a pair: reasons of its own, a mark among its parameters, or where it goes
// on, which has been worked out before.
pub fn command_reason<M: Marks>(
    submission: &Submission,
    marks: &M,
    command: Reading,
    pair: Pair,
    next: Nexts,
) -> Option<Reason>
    ensures { FindsAt submission.now.setting submission.now.words.now submission.now.permit.now (M.tests marks.now) command pair.place pair.inside next result }
{
    let words = submission.size();
    own_reason(submission, command, pair)
        .or_else(|| marked_reason(marks, command, pair.place))
        .or_else(|| next_reason(words, marks, next))
}

// Reasons 3 to 8 and 13: those that a command has by itself, whatever the map. It is taken apart once,
// before the tests, which then go by numbers; without parameters there is nothing to try of them.
#[tactic(auto, using(rules::proofs::MethodLaws::denied_by, rules::proofs::MethodLaws::lacking_by, rules::proofs::MethodLaws::none_fails, rules::proofs::MethodLaws::wraps_by), unfolding(rules::specs::Reason::finding_of, word::specs::First::choose, word::specs::First::first))]
pub fn own_reason(submission: &Submission, command: Reading, pair: Pair) -> Option<Reason>
    ensures { FindsOwn submission.now.setting submission.now.words.now submission.now.permit.now command pair.place pair.inside result }
{
    let parameters = Parameters::of(command);
    if is_reserved(command) {
        return Some(Reason::RESERVED);
    }
    if calls_inside(command, pair.inside) {
        return Some(Reason::CALL_INSIDE);
    }
    if returns_outside(command, pair.inside) {
        return Some(Reason::RETURN_OUTSIDE);
    }
    if runs_short(submission.size(), pair.place, parameters.count) {
        return Some(Reason::SHORT);
    }
    if parameters.count == 0 {
        return None;
    }
    if parameters.wrap() {
        return Some(Reason::WRAPS);
    }
    if parameters.any_lacking(submission.setting) {
        return Some(Reason::NON_CACHE);
    }
    if parameters.any_denied(submission.permit) {
        return Some(Reason::NOT_PERMITTED);
    }
    None
}

// What is no command: the long form is none of NV04-style's.
#[tactic(auto, using(rules::proofs::Readings::is_reserved, rules::proofs::Readings::not_reserved))]
fn is_reserved(command: Reading) -> bool
    ensures { result ≡ reserved? command }
{
    matches!(
        command,
        Reading::Long { .. } | Reading::Reserved { .. } | Reading::Refused { .. }
    )
}

// A call inside a subroutine.
fn calls_inside(command: Reading, inside: bool) -> bool
    ensures { result ≡ call? command && inside }
{
    match command {
        Reading::Call { .. } => inside,
        _ => false,
    }
}

// A return outside one.
fn returns_outside(command: Reading, inside: bool) -> bool
    ensures { result ≡ return? command && not inside }
{
    match command {
        Reading::Return => !inside,
        _ => false,
    }
}

// Whether the words end before so many parameters after a place do.
fn runs_short(words: usize, place: usize, count: u32) -> bool
    ensures { result ≡ ltb words (place + 1 + count) }
{
    words <= place || words - place - 1 < count as usize
}

// Reason 9, of the parameters of the command at a place.
#[tactic(auto, unfolding(word::specs::First::first, word::specs::First::choose, rules::specs::Reason::finding_of))]
fn marked_reason<M: Marks>(marks: &M, command: Reading, place: usize) -> Option<Reason>
    ensures { result ≡ finding_of (first (MARKED_PARAMETER when (M.tests marks.now).among (place + 1) (parameter_count command) ∷ [])) }
{
    marks
        .among(place, parameter_count(command))
        .then_some(Reason::MARKED_PARAMETER)
}

// Reasons 10, 12 and 11, of each next pair in turn.
#[tactic(auto, using(rules::proofs::Findings::by_nexts), unfolding(rules::proofs::Findings::either))]
fn next_reason<M: Marks>(words: usize, marks: &M, next: Nexts) -> Option<Reason>
    ensures { result ≡ finding_of (first (next_cases (M.tests marks.now).lacks words (pairs_in next))) }
{
    arrival_at(words, marks, next.first).or_else(|| arrival_at(words, marks, next.second))
}

// Those of one of them, if there is one.
#[tactic(auto, unfolding(rules::specs::Next::pair_in, word::specs::First::first, rules::specs::Reason::finding_of))]
fn arrival_at<M: Marks>(words: usize, marks: &M, next: Option<Pair>) -> Option<Reason>
    ensures { result ≡ finding_of (first (next_cases (M.tests marks.now).lacks words (pair_in next))) }
{
    let pair = next?;
    arrival(words, pair, marks.lacks(pair))
}

// What speaks against going on at a pair, of so many words: it lies past the end, or is the end, which
// needs no mark, inside a subroutine, or it lacks its mark.
#[tactic(auto, unfolding(word::specs::First::first, word::specs::First::choose, rules::specs::Reason::finding_of))]
pub fn arrival(words: usize, pair: Pair, lacks: bool) -> Option<Reason>
    ensures { Arrives words pair lacks result }
{
    if words < pair.place {
        return Some(Reason::TARGET_PAST);
    }
    if pair.place == words {
        return pair.inside.then_some(Reason::END_INSIDE);
    }
    lacks.then_some(Reason::NOT_MARKED)
}
