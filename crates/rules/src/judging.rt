// What the gatekeeper answers.
use crate::pair::Pair;
use crate::reason::Reason;
use word::{Refusal, Why};

// The first pair that is refused, with its reason.
#[derive(Clone, Copy)]
pub struct FirstRefused {
    pub reason: Reason,
    pub pair: Pair,
}

// What is said of a submission: that it is accepted, or why it is not.
pub type Verdict = Result<(), Unfit>;

// A reason speaks against the words, at a place; or there is no judgement. Reason 3 has a case of its own,
// which says why the word there is reserved.
#[derive(Clone, Copy)]
pub enum Unfit {
    Rejected { reason: Reason, place: u32 },
    Refused { refusal: Refusal },
    Reserved { why: Why, place: u32 },
}

// `count` is how many methods the list permits, 0 where there is no judgement.
#[derive(Clone, Copy)]
pub struct Judgement {
    pub verdict: Verdict,
    pub count: u32,
}
