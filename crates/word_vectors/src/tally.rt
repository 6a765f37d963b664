// How many records of each kind there were, and the first that was wrong.
use crate::question::{Kind, RECORD_WORDS, Record};
use std::fmt;

#[derive(Clone, Copy, Default)]
pub(crate) struct Tally {
    read: u32,
    read_at: u32,
    write: u32,
    present: u32,
    unknown: u32,
    wrong: u32,
    first: Option<Wrong>,
}

// A wrong record's place, counted from 1, and its words.
#[derive(Clone, Copy)]
struct Wrong {
    place: u32,
    words: [u32; RECORD_WORDS],
}

impl Tally {
    // One more of a kind.
    pub(crate) fn count(&mut self, kind: Kind) {
        let count = match kind {
            Kind::Read => &mut self.read,
            Kind::ReadAt => &mut self.read_at,
            Kind::Write => &mut self.write,
            Kind::Present => &mut self.present,
            Kind::Unknown => &mut self.unknown,
        };
        *count = count.saturating_add(1);
    }

    // One more that is wrong, at its place.
    pub(crate) fn miss(&mut self, place: u32, record: Record) {
        let words = record.words;
        self.first.get_or_insert(Wrong { place, words });
        self.wrong = self.wrong.saturating_add(1);
    }
}

impl fmt::Display for Tally {
    fn fmt<W: fmt::Write>(&self, f: &mut fmt::Formatter<W>) -> fmt::Result {
        writeln!(f, "read {}", self.read)?;
        writeln!(f, "read_at {}", self.read_at)?;
        writeln!(f, "write {}", self.write)?;
        writeln!(f, "present {}", self.present)?;
        writeln!(f, "unknown {}", self.unknown)?;
        writeln!(f, "wrong {}", self.wrong)?;
        let Some(first) = self.first else {
            return writeln!(f, "first wrong 0");
        };
        writeln!(f, "first wrong {}", first.place)?;
        for word in first.words {
            writeln!(f, "  {word}")?;
        }
        Ok(())
    }
}
