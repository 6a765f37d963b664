// What the library does with a channel, in words: its answer, and the channel after it. The channel's record
// is made here, of words, and is words again at once: the check has to follow each of its fields wherever it
// is handed on, and of a row of words only the row.
use crate::answer::{told_opening, told_put, told_step};
use crate::layout::CHANNEL_WORDS;
use crate::pool::{Lent, Memory};
use crate::state::{channel_of, words_of};
use channel::{Channel, Opened, Put, Stepped};
use records::Words;

#[derive(Clone, Copy)]
pub struct Outcome {
    pub answer: [u32; 6],
    pub channel: [u32; CHANNEL_WORDS],
}

// What a channel is opened with, apart from its table.
#[derive(Clone, Copy)]
pub struct Asked {
    pub level: u32,
    pub mode: u32,
    pub order: u32,
    pub sli: bool,
    pub mask: u32,
    pub limit: u32,
}

impl Asked {
    pub(crate) fn next(input: &mut Words<'_>) -> Asked {
        Asked {
            level: input.next_word(),
            mode: input.next_word(),
            order: input.next_word(),
            sli: input.next_word() != 0,
            mask: input.next_word(),
            limit: input.next_word(),
        }
    }
}

impl Outcome {
    pub(crate) fn opened(asked: Asked, table: &[u32], lent: usize) -> Outcome {
        let t = lent.min(table.len());
        of_opening(Channel::open(
            asked.level,
            asked.mode,
            asked.order,
            asked.sli,
            asked.mask,
            asked.limit,
            &table[..t],
        ))
    }

    pub(crate) fn put_set(channel: [u32; CHANNEL_WORDS], put: u32) -> Outcome {
        of_put(channel_of(channel).set_put(put))
    }

    pub(crate) fn stepped(
        channel: [u32; CHANNEL_WORDS],
        lent: Lent,
        memory: &mut Memory<'_>,
    ) -> Outcome {
        let entries = memory.entries;
        let words = &mut *memory.words;
        let table = &mut *memory.table;
        let semaphores = &mut *memory.semaphores;
        let w = lent.words.min(words.len());
        let e = lent.entries.min(entries.len());
        let t = lent.table.min(table.len());
        let s = lent.semaphores.min(semaphores.len());
        of_step(channel_of(channel).step(
            &words[..w],
            &entries[..e],
            &table[..t],
            &mut semaphores[..s],
            lent.clock,
        ))
    }
}

fn of_opening(opened: Opened) -> Outcome {
    Outcome {
        answer: told_opening(opened.answer),
        channel: words_of(opened.channel),
    }
}

fn of_put(set: Put) -> Outcome {
    Outcome {
        answer: told_put(set.answer),
        channel: words_of(set.channel),
    }
}

fn of_step(stepped: Stepped) -> Outcome {
    Outcome {
        answer: told_step(stepped.answer),
        channel: words_of(stepped.channel),
    }
}
