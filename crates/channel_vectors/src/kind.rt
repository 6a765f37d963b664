// The kinds of records.
use crate::opening::open;
use crate::pool::Pools;
use crate::run::run;
use crate::single::{put, single};
use crate::verdict::Verdict;
use records::{Unknown, Words};

#[derive(Clone, Copy)]
pub enum Kind {
    Open,
    Run,
    Single,
    Put,
}

impl TryFrom<u32> for Kind {
    type Error = Unknown;

    fn try_from(number: u32) -> Result<Kind, Unknown> {
        match number {
            1 => Ok(Kind::Open),
            2 => Ok(Kind::Run),
            3 => Ok(Kind::Single),
            4 => Ok(Kind::Put),
            _ => Err(Unknown),
        }
    }
}

impl Kind {
    // The next record of this kind, held to the library.
    pub(crate) fn next_held(self, input: &mut Words<'_>, pools: &mut Pools<'_>) -> Verdict {
        match self {
            Kind::Open => Verdict::alone(open(input, pools.table)),
            Kind::Run => run(input, pools),
            Kind::Single => Verdict::alone(single(input, pools)),
            Kind::Put => Verdict::alone(put(input)),
        }
    }
}
