// A record of a run: a channel is opened, and one operation after the other done with it.
use crate::operation::next_operation;
use crate::outcome::{Asked, Outcome};
use crate::pair::Pair;
use crate::pool::{MOST_ENTRIES, Memory, Pools};
use crate::verdict::Verdict;
use records::Words;

// More operations than a run has.
const MOST_OPERATIONS: usize = 4096;

pub(crate) fn run(input: &mut Words<'_>, pools: &mut Pools<'_>) -> Verdict {
    let words = &mut *pools.small;
    let table = &mut *pools.table;
    let semaphores = &mut *pools.large;
    run_in(input, words, table, semaphores)
}

// The model's channel starts as the opened one: whether that is right, other records ask.
fn run_in(
    input: &mut Words<'_>,
    words: &mut [u32],
    table: &mut [u32],
    semaphores: &mut [u32],
) -> Verdict {
    let asked = Asked::next(input);
    let mut memory = Memory {
        words,
        entries: [0; MOST_ENTRIES],
        table,
        semaphores,
    };
    let given = memory.load(input);
    let outcome = Outcome::opened(asked, memory.table, given);
    let mut pair = Pair::new(outcome.channel, memory.semaphores);
    operations(input, &mut pair, &mut memory)
}

fn operations(input: &mut Words<'_>, pair: &mut Pair, memory: &mut Memory<'_>) -> Verdict {
    let mut verdict = Verdict::default();
    let count = input.next_up_to(MOST_OPERATIONS);
    for _ in 0..count {
        let done = next_operation(input, pair, memory);
        verdict.add(done, pair.memory_held(memory.semaphores));
    }
    verdict
}
