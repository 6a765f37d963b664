// How many records there were of each kind, and the first that was wrong.
use crate::answer::Held;
use crate::question::Kind;
use crate::record::Record;
use std::fmt;

#[derive(Clone, Copy, Default)]
pub(crate) struct Tally {
    judge: u32,
    large: u32,
    repair: u32,
    wide: u32,
    search: u32,
    read: u32,
    unknown: u32,
    wrong: u32,
    first: Option<Wrong>,
}

// A wrong record's place, counted from 1, with what was wanted and what was got.
#[derive(Clone, Copy)]
struct Wrong {
    place: u32,
    held: Held,
}

impl Tally {
    pub(crate) fn count(&mut self, place: u32, record: Record) {
        let count = match record.kind {
            Kind::Judge => &mut self.judge,
            Kind::Large => &mut self.large,
            Kind::Repair => &mut self.repair,
            Kind::Wide => &mut self.wide,
            Kind::Search => &mut self.search,
            Kind::Read => &mut self.read,
        };
        *count = count.saturating_add(1);
        let held = record.held;
        if held.got != held.wanted {
            self.first.get_or_insert(Wrong { place, held });
            self.wrong = self.wrong.saturating_add(1);
        }
    }

    pub(crate) fn count_unknown(&mut self) {
        self.unknown = self.unknown.saturating_add(1);
    }
}

impl fmt::Display for Tally {
    fn fmt<W: fmt::Write>(&self, f: &mut fmt::Formatter<W>) -> fmt::Result {
        writeln!(f, "judge {}", self.judge)?;
        writeln!(f, "large {}", self.large)?;
        writeln!(f, "repair {}", self.repair)?;
        writeln!(f, "wide {}", self.wide)?;
        writeln!(f, "search {}", self.search)?;
        writeln!(f, "read {}", self.read)?;
        writeln!(f, "unknown {}", self.unknown)?;
        writeln!(f, "wrong {}", self.wrong)?;
        let Some(first) = self.first else {
            return writeln!(f, "first wrong 0");
        };
        writeln!(f, "first wrong {}", first.place)?;
        for (name, answer) in [("wanted", first.held.wanted), ("got", first.held.got)] {
            writeln!(f, "  {name} reason {}", answer.reason)?;
            writeln!(f, "  {name} refusal {}", answer.refusal)?;
            writeln!(f, "  {name} why {}", answer.why)?;
            writeln!(f, "  {name} count {}", answer.count)?;
            writeln!(f, "  {name} place {}", answer.place)?;
        }
        Ok(())
    }
}
