// How many records there were of each kind, and the first that was wrong.
use crate::answer::Miss;
use crate::question::Kind;
use crate::record::Record;
use std::fmt;

#[derive(Clone, Copy, Default)]
pub(crate) struct Tally {
    list: u32,
    large: u32,
    unknown: u32,
    wrong: u32,
    first: Option<Wrong>,
}

// A wrong record's place, counted from 1, and its wrong answer.
#[derive(Clone, Copy)]
struct Wrong {
    place: u32,
    miss: Miss,
}

impl Tally {
    pub(crate) fn count(&mut self, place: u32, record: Record) {
        let count = match record.kind {
            Kind::List => &mut self.list,
            Kind::Large => &mut self.large,
        };
        *count = count.saturating_add(1);
        if let Some(miss) = record.miss {
            self.first.get_or_insert(Wrong { place, miss });
            self.wrong = self.wrong.saturating_add(1);
        }
    }

    pub(crate) fn count_unknown(&mut self) {
        self.unknown = self.unknown.saturating_add(1);
    }
}

impl fmt::Display for Tally {
    fn fmt<W: fmt::Write>(&self, f: &mut fmt::Formatter<W>) -> fmt::Result {
        writeln!(f, "list {}", self.list)?;
        writeln!(f, "large {}", self.large)?;
        writeln!(f, "unknown {}", self.unknown)?;
        writeln!(f, "wrong {}", self.wrong)?;
        match self.first {
            Some(first) => {
                let miss = first.miss;
                write!(f, "first wrong {}\n{miss}", first.place)
            }
            None => writeln!(f, "first wrong 0"),
        }
    }
}
