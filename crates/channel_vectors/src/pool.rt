// The pools whose first words a record lends: most of their words are the pools' own, and the record
// gives those at the start.
use records::Words;

// The most words of a pool that a record gives.
pub const MOST_GIVEN: usize = 64;

// The most IB entries that it gives.
pub const MOST_ENTRIES: usize = 32;

// The table pool's own words are this and those above it.
const TABLE_WORD: u32 = 0x8000_0000;

pub const TABLE_WORDS: usize = 4104;

// One word more than may be lent, so that SIZE is tried.
pub const LARGE_WORDS: usize = 1_048_577;

// Two pools for words and semaphores, the small one of `MOST_GIVEN`, and one for the table.
#[derive(Drop)]
pub(crate) struct Pools<'a> {
    pub(crate) small: &'a mut [u32],
    pub(crate) large: &'a mut [u32],
    pub(crate) table: &'a mut [u32],
}

// What a record's steps are lent of: the entries are as many as it gives, and zeros behind them.
#[derive(Drop)]
pub(crate) struct Memory<'a> {
    pub(crate) words: &'a mut [u32],
    pub(crate) entries: [u64; MOST_ENTRIES],
    pub(crate) table: &'a mut [u32],
    pub(crate) semaphores: &'a mut [u32],
}

impl Memory<'_> {
    // Reads what a record gives, and says how many words of the table that is.
    pub(crate) fn load(&mut self, input: &mut Words<'_>) -> usize {
        let table = load_table(input, self.table);
        load(input, self.words);
        let given = input.next_up_to(MOST_ENTRIES);
        for entry in self.entries.iter_mut().take(given) {
            *entry = input.next_pair();
        }
        load(input, self.semaphores);
        table
    }
}

// How much of each pool is lent to a step, and the clock.
#[derive(Clone, Copy)]
pub struct Lent {
    pub words: usize,
    pub entries: usize,
    pub table: usize,
    pub semaphores: usize,
    pub clock: u64,
}

impl Lent {
    pub(crate) fn next(input: &mut Words<'_>) -> Lent {
        Lent {
            words: input.next_word() as usize,
            entries: input.next_word() as usize,
            table: input.next_word() as usize,
            semaphores: input.next_word() as usize,
            clock: input.next_pair(),
        }
    }

    // The same where one word says how much, for a step of a run.
    pub(crate) fn next_packed(input: &mut Words<'_>) -> Lent {
        let [words, entries, table, semaphores] = input.next_word().to_le_bytes();
        Lent {
            words: usize::from(words),
            entries: usize::from(entries),
            table: usize::from(table),
            semaphores: usize::from(semaphores),
            clock: input.next_pair(),
        }
    }
}

// The words of the pushbuffer, or the semaphore words. Behind those that the record gives, where an earlier record
// may have given some, the pool has its own again.
fn load(input: &mut Words<'_>, pool: &mut [u32]) {
    let most = pool.len().min(MOST_GIVEN);
    pool[..most].fill(0);
    load_given(input, pool);
}

// The same of the table; says how many words the record gives.
pub(crate) fn load_table(input: &mut Words<'_>, table: &mut [u32]) -> usize {
    for (own, word) in (TABLE_WORD..=u32::MAX).zip(table.iter_mut()) {
        *word = own;
    }
    load_given(input, table)
}

fn load_given(input: &mut Words<'_>, pool: &mut [u32]) -> usize {
    let given = input.next_up_to(MOST_GIVEN);
    for word in pool.iter_mut().take(given) {
        *word = input.next_word();
    }
    given
}
