// A word's reading, asked by its function for C. The number is told by its halves, the lower one as the
// answer's reason, the upper one as its refusal.
use crate::answer::{Answer, Held};
use records::Words;

pub(crate) fn read(input: &mut Words<'_>) -> Held {
    let level = input.next_word();
    let mode = input.next_word();
    let sli = input.next_word();
    let word = input.next_word();
    let packed = upborliya::upborliya_read(level, mode, sli, word, input.next_word());
    Held {
        wanted: halves(input.next_pair()),
        got: halves(packed),
    }
}

fn halves(packed: u64) -> Answer {
    let low = (packed & 0xffff_ffff) as u32;
    let high = (packed >> 32) as u32;
    Answer::new(low, high, 0, 0)
}
