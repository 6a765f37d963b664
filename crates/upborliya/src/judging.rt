// The gatekeeper's judgement in one number.
ghost use Rattle.std.specs.Prelude.{◌≡◌};
ghost use Rattle.upborliya.specs.Packed.{packed, reason_in, refusal_in, why_in, place_in};
ghost use Rattle.upborliya.specs.Outcomes.{JudgesPacked};

use gate::judge;
use rules::{Judgement, Reason, Unfit, Verdict};

// Judges a submission. SLI is off for 0, and on for any other number.
pub fn upborliya_judge(level: u32, sli: u32, words: &[u8], map: &[u8], permit: &[u8]) -> u64
    ensures { JudgesPacked level sli words.now map.now permit.now result }
{
    pack(judge(level, sli != 0, words, map, permit))
}

// Reason, refusal, why, count and place, from the lowest bits up.
#[tactic(auto, unfolding(crate::specs::Packed::packed))]
fn pack(judgement: Judgement) -> u64
    ensures { result ≡ packed judgement }
{
    let verdict = judgement.verdict;
    let count = (judgement.count & 0xffff) as u64;
    let place = (place_in(verdict) & 0xff_ffff) as u64;
    let why = why_in(verdict) as u64;
    let refusal = refusal_in(verdict) as u64;
    place << 40 | (count << 24 | (why << 16 | (refusal << 8 | reason_in(verdict) as u64)))
}

#[tactic(auto, unfolding(crate::specs::Packed::reason_in))]
fn reason_in(verdict: Verdict) -> u8
    ensures { result ≡ reason_in verdict }
{
    match verdict {
        Ok(()) => 0,
        Err(Unfit::Rejected { reason, .. }) => reason.number,
        Err(Unfit::Refused { .. }) => 0,
        Err(Unfit::Reserved { .. }) => Reason::RESERVED.number,
    }
}

#[tactic(auto, unfolding(crate::specs::Packed::refusal_in))]
fn refusal_in(verdict: Verdict) -> u8
    ensures { result ≡ refusal_in verdict }
{
    match verdict {
        Ok(()) => 0,
        Err(Unfit::Rejected { .. }) => 0,
        Err(Unfit::Refused { refusal }) => refusal.number,
        Err(Unfit::Reserved { .. }) => 0,
    }
}

#[tactic(auto, unfolding(crate::specs::Packed::why_in))]
fn why_in(verdict: Verdict) -> u8
    ensures { result ≡ why_in verdict }
{
    match verdict {
        Ok(()) => 0,
        Err(Unfit::Rejected { .. }) => 0,
        Err(Unfit::Refused { .. }) => 0,
        Err(Unfit::Reserved { why, .. }) => why.number(),
    }
}

#[tactic(auto, unfolding(crate::specs::Packed::place_in))]
fn place_in(verdict: Verdict) -> u32
    ensures { result ≡ place_in verdict }
{
    match verdict {
        Ok(()) => 0,
        Err(Unfit::Rejected { place, .. }) => place,
        Err(Unfit::Refused { .. }) => 0,
        Err(Unfit::Reserved { place, .. }) => place,
    }
}
