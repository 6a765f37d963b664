// A channel as the library has it and as the model has it, in words, and the model's semaphore words, of
// which a record can give the first. The model's come from standard input, as changes.
use crate::difference::{Difference, Part, compared};
use crate::layout::CHANNEL_WORDS;
use crate::pool::MOST_GIVEN;
use records::Words;

#[derive(Clone, Copy)]
pub struct Pair {
    pub got: [u32; CHANNEL_WORDS],
    pub wanted: [u32; CHANNEL_WORDS],
    pub memory: [u32; MOST_GIVEN],
}

impl Pair {
    // Both start as the same channel, and the model's semaphore words as those of the pool.
    pub(crate) fn new(channel: [u32; CHANNEL_WORDS], semaphores: &[u32]) -> Pair {
        let mut memory = [0; MOST_GIVEN];
        for (word, of_pool) in memory.iter_mut().zip(semaphores) {
            *word = *of_pool;
        }
        Pair {
            got: channel,
            wanted: channel,
            memory,
        }
    }

    // A word of the model's channel that is another now: a place, and in the same word or the next the word there.
    pub(crate) fn next_delta(&mut self, input: &mut Words<'_>) {
        let delta = input.next_word();
        let place = (delta % 0x80) as usize;
        let word = if delta / 0x80 % 2 == 0 {
            delta / 0x100
        } else {
            input.next_word()
        };
        if let Some(wanted) = self.wanted.get_mut(place) {
            *wanted = word;
        }
    }

    pub(crate) fn set_semaphore(&mut self, place: usize, word: u32) {
        if let Some(semaphore) = self.memory.get_mut(place) {
            *semaphore = word;
        }
    }

    pub(crate) fn channel_held(&self) -> Option<Difference> {
        compared(Part::Channel, &self.wanted, &self.got)
    }

    pub(crate) fn memory_held(&self, semaphores: &[u32]) -> Option<Difference> {
        compared(Part::Semaphore, &self.memory, semaphores)
    }
}
