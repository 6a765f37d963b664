// The records on standard input: a kind, and the words of its question and answer.
ghost use Rattle.std.specs.Prelude.{◌≤◌};

use records::{Words, read_words};
use std::io::{self, Read};

// The most words of a record, behind its kind.
pub(crate) const RECORD_WORDS: usize = 16;

const RECORD_BYTES: usize = 4 * RECORD_WORDS;

#[derive(Clone, Copy)]
pub enum Kind {
    Read,
    ReadAt,
    Write,
    Present,
    Unknown,
}

impl From<u32> for Kind {
    fn from(number: u32) -> Kind {
        match number {
            1 => Kind::Read,
            2 => Kind::ReadAt,
            3 => Kind::Write,
            4 => Kind::Present,
            _ => Kind::Unknown,
        }
    }
}

impl Kind {
    // How many words follow it.
    fn words(self) -> usize
        ensures { result ≤ 16 }
    {
        match self {
            Kind::Read => 10,
            Kind::ReadAt => 15,
            Kind::Write => 16,
            Kind::Present => 3,
            Kind::Unknown => 0,
        }
    }
}

// Behind the words that a kind has are zeros.
#[derive(Clone, Copy)]
pub struct Record {
    pub kind: Kind,
    pub words: [u32; RECORD_WORDS],
}

impl Record {
    // The next record, none where the input ends, also in the middle of a record.
    pub(crate) fn next(input: &mut impl Read) -> io::Result<Option<Record>> {
        let mut four = [0u8; 4];
        let Some(number) = read_words(input, &mut four)?.next() else {
            return Ok(None);
        };
        let kind = Kind::from(number);
        let mut bytes = [0u8; RECORD_BYTES];
        let wanted = 4 * kind.words();
        if read_words(input, &mut bytes[..wanted])?.rest.len() < wanted {
            return Ok(None);
        }
        let mut words = [0; RECORD_WORDS];
        for (word, given) in words.iter_mut().zip(Words { rest: &bytes }) {
            *word = given;
        }
        Ok(Some(Record { kind, words }))
    }
}
