// Records of one operation on a channel that is given, be it well-formed or not.
use crate::difference::{Difference, Part};
use crate::layout::CHANNEL_WORDS;
use crate::operation::{Header, Operation, set, step};
use crate::pair::Pair;
use crate::pool::{Lent, MOST_ENTRIES, MOST_GIVEN, Memory, Pools};
use crate::state::next_channel;
use records::Words;
use std::mem;

pub(crate) fn put(input: &mut Words<'_>) -> Option<Difference> {
    let given = next_channel(input);
    let put = input.next_word();
    let header = Header::next(input);
    let difference = set(input, &mut Pair::new(given, &[]), put, header);
    header.of(Operation::Put).or(difference)
}

// One step. One pool has 1,048,577 words. So the longer of words and semaphores is lent from the large
// pool, and the other from the small one: no record lends more than that has of both.
pub(crate) fn single(input: &mut Words<'_>, pools: &mut Pools<'_>) -> Option<Difference> {
    let given = next_channel(input);
    let lent = Lent::next(input);
    let small = &mut *pools.small;
    let large = &mut *pools.large;
    let table = &mut *pools.table;
    if lent.semaphores < lent.words {
        return single_in(input, given, lent, large, table, small);
    }
    single_in(input, given, lent, small, table, large)
}

fn single_in(
    input: &mut Words<'_>,
    given: [u32; CHANNEL_WORDS],
    lent: Lent,
    words: &mut [u32],
    table: &mut [u32],
    semaphores: &mut [u32],
) -> Option<Difference> {
    let mut memory = Memory {
        words,
        entries: [0; MOST_ENTRIES],
        table,
        semaphores,
    };
    memory.load(input);
    let mut pair = Pair::new(given, memory.semaphores);
    let header = Header::next(input);
    let difference = step(input, &mut pair, header, lent, &mut memory);
    let near = pair.memory_held(memory.semaphores);
    let swept = swept(memory.semaphores, lent.semaphores);
    header.of(Operation::Step).or(difference).or(near).or(swept)
}

// Holds the semaphore words that were lent, past the first, to the model's: those are 0.
fn swept(semaphores: &mut [u32], lent: usize) -> Option<Difference> {
    let mut found = None;
    for (place, word) in semaphores
        .iter_mut()
        .enumerate()
        .take(lent)
        .skip(MOST_GIVEN)
    {
        let got = mem::take(word);
        if got != 0 && found.is_none() {
            found = Some(Difference::Word {
                part: Part::Semaphore,
                place,
                wanted: 0,
                got,
            });
        }
    }
    found
}
