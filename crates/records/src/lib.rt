// The model's records, which the programs that ask its questions read from standard input: a row of words, each with
// its lowest byte first.
#![tactic(auto)]

ghost use Rattle.std.specs.Prelude.{◌≡◌, drop, length};
ghost use Rattle.std.specs.Iterator.{YieldsFirst, item_count};
ghost use Rattle.word.specs.Lent.{words_of};
ghost use Rattle.records.specs.Outcomes.{TakesWord, TakesByte, TakesPair, TakesUpTo, TakesBytes, ReadsWords};

use std::io::{self, Read};

// More records than a file has: a program's run ends with its input.
pub const MOST_RECORDS: u32 = 1_000_000;

// What the format does not have: nothing after it can be understood.
#[derive(Clone, Copy)]
pub struct Unknown;

// The words that are left, as bytes.
#[derive(Drop)]
pub struct Words<'a> {
    pub rest: &'a [u8],
}

impl<'a> Iterator for Words<'a> {
    type Item = u32;

    ghost next_gives = { λ s r t. YieldsFirst (λ s. words_of s.rest.now) s r t × (t.rest.now ≡ drop 4 s.rest.now) };

    ghost remaining = { item_count (λ s. words_of s.rest.now) };

    // Where the bytes that are left make no whole word, the input ends with them.
    #[tactic(auto, using(crate::proofs::Bytes::none_left, crate::proofs::Bytes::first_word))]
    fn next(&mut self) -> Option<u32> {
        let Some((four, rest)) = self.rest.split_first_chunk::<4>() else {
            self.rest = &[];
            return None;
        };
        self.rest = rest;
        Some(u32::from_le_bytes(*four))
    }
}

impl<'a> Words<'a> {
    // The next word, 0 where the input ends.
    pub fn next_word(&mut self) -> u32
        ensures { TakesWord self.old.rest.now result self.new.rest.now }
    {
        self.next().unwrap_or(0)
    }

    // A byte, which has a word of its own.
    pub fn next_byte(&mut self) -> u8
        ensures { TakesByte self.old.rest.now result self.new.rest.now }
    {
        (self.next_word() % 0x100) as u8
    }

    // A number of two words, the lower half first.
    pub fn next_pair(&mut self) -> u64
        ensures { TakesPair self.old.rest.now result self.new.rest.now }
    {
        let low = self.next_word();
        let high = self.next_word();
        u64::from(high) << 32 | u64::from(low)
    }

    // The next word, or `most` where it is more: a damaged count ends sooner than its loop would.
    pub fn next_up_to(&mut self, most: usize) -> usize
        ensures { TakesUpTo most self.old.rest.now result self.new.rest.now }
    {
        (self.next_word() as usize).min(most)
    }

    // The next bytes as they stand, fewer where the input ends.
    pub fn next_bytes(&mut self, count: usize) -> &'a [u8]
        ensures { TakesBytes count self.old.rest.now result.now self.new.rest.now }
    {
        let (bytes, rest) = self.rest.split_at(count.min(self.rest.len()));
        self.rest = rest;
        bytes
    }
}

// Reads until the buffer is full or the input ends, and no further: the words of what was read.
pub fn read_words<'b, R: Read>(input: &mut R, buffer: &'b mut [u8]) -> io::Result<Words<'b>>
    ensures { ReadsWords (length buffer.old) (R.remaining input.old) (R.remaining input.new) result }
{
    let mut done = 0;
    while done < buffer.len() {
        let count = input.read(&mut buffer[done..])?;
        if count == 0 {
            break;
        }
        done += count;
    }
    Ok(Words {
        rest: &buffer[..done],
    })
}
