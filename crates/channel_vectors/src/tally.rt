// How many records there were of each kind, how many steps the runs had, and the first record that was wrong.
use crate::difference::Difference;
use crate::kind::Kind;
use crate::verdict::Verdict;
use std::fmt;

// More steps than any file has.
const MOST_STEPS: u32 = 0x1000_0000;

#[derive(Clone, Copy, Default)]
pub(crate) struct Tally {
    open: u32,
    run: u32,
    step: u32,
    single: u32,
    put: u32,
    unknown: u32,
    wrong: u32,
    first: Option<Wrong>,
}

// A wrong record's place, counted from 1, with its operation and what differs there.
#[derive(Clone, Copy)]
struct Wrong {
    place: u32,
    operation: u32,
    difference: Difference,
}

impl Tally {
    pub(crate) fn count(&mut self, place: u32, kind: Kind, verdict: Verdict) {
        let count = match kind {
            Kind::Open => &mut self.open,
            Kind::Run => &mut self.run,
            Kind::Single => &mut self.single,
            Kind::Put => &mut self.put,
        };
        *count = count.saturating_add(1);
        if self.step <= MOST_STEPS {
            self.step = self.step.saturating_add(verdict.steps);
        }
        if let Some(difference) = verdict.difference {
            self.miss(Wrong {
                place,
                operation: verdict.operation,
                difference,
            });
        }
    }

    // A record of a kind that there is not is wrong, too.
    pub(crate) fn count_unknown(&mut self, place: u32, number: u32) {
        self.unknown = self.unknown.saturating_add(1);
        self.miss(Wrong {
            place,
            operation: 0,
            difference: Difference::Form { number },
        });
    }

    fn miss(&mut self, wrong: Wrong) {
        self.first.get_or_insert(wrong);
        self.wrong = self.wrong.saturating_add(1);
    }
}

impl fmt::Display for Tally {
    fn fmt<W: fmt::Write>(&self, f: &mut fmt::Formatter<W>) -> fmt::Result {
        writeln!(f, "open {}", self.open)?;
        writeln!(f, "run {}", self.run)?;
        writeln!(f, "step {}", self.step)?;
        writeln!(f, "single {}", self.single)?;
        writeln!(f, "put {}", self.put)?;
        writeln!(f, "unknown {}", self.unknown)?;
        writeln!(f, "wrong {}", self.wrong)?;
        let Some(first) = self.first else {
            return writeln!(f, "first wrong 0");
        };
        let difference = first.difference;
        writeln!(f, "first wrong {}", first.place)?;
        writeln!(f, "  operation {}", first.operation)?;
        write!(f, "{difference}")
    }
}
