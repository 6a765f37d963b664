// Answers: the model's, and the library's.
use gate::{Judgement, Unfit};
use records::Words;

// What an answer lacks is 0.
#[derive(Clone, Copy, PartialEq, Eq, Default)]
pub struct Answer {
    pub reason: u32,
    pub refusal: u32,
    pub why: u32,
    pub count: u32,
    pub place: u32,
}

// The model's answer to a record, and the library's.
#[derive(Clone, Copy)]
pub struct Held {
    pub wanted: Answer,
    pub got: Answer,
}

impl Answer {
    // An answer without a why.
    pub(crate) fn new(reason: u32, refusal: u32, count: u32, place: u32) -> Answer {
        Answer {
            reason,
            refusal,
            why: 0,
            count,
            place,
        }
    }

    pub(crate) fn next(input: &mut Words<'_>) -> Answer {
        Answer {
            reason: input.next_word(),
            refusal: input.next_word(),
            why: input.next_word(),
            count: input.next_word(),
            place: input.next_word(),
        }
    }

    pub(crate) fn unpacked(packed: u64) -> Answer {
        let [reason, refusal, why, c0, c1, p0, p1, p2] = packed.to_le_bytes();
        Answer {
            reason: u32::from(reason),
            refusal: u32::from(refusal),
            why: u32::from(why),
            count: u32::from_le_bytes([c0, c1, 0, 0]),
            place: u32::from_le_bytes([p0, p1, p2, 0]),
        }
    }
}

pub(crate) fn told(judgement: Judgement) -> Answer {
    let verdict = judgement.verdict;
    let count = judgement.count;
    match verdict {
        Ok(()) => Answer::new(0, 0, count, 0),
        Err(Unfit::Rejected { reason, place }) => {
            Answer::new(u32::from(reason.number), 0, count, place)
        }
        Err(Unfit::Refused { refusal }) => Answer::new(0, u32::from(refusal.number), count, 0),
        Err(Unfit::Reserved { why, place }) => Answer {
            reason: 3,
            refusal: 0,
            why: u32::from(why.number()),
            count,
            place,
        },
    }
}
