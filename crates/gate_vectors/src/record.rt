// The records, each held to the library.
use crate::answer::Held;
use crate::judging::judged;
use crate::pool::Pools;
use crate::question::{Form, Kind};
use crate::reading::read;
use crate::repairing::repaired;
use crate::searching::searched;
use records::{Unknown, Words};

#[derive(Clone, Copy)]
pub struct Record {
    pub kind: Kind,
    pub held: Held,
}

// None where the input ends, which reads as kind 0.
pub(crate) fn next_record(
    input: &mut Words<'_>,
    pools: &mut Pools<'_>,
) -> Result<Option<Record>, Unknown> {
    let number = input.next_word();
    if number == 0 {
        return Ok(None);
    }
    let kind = Kind::try_from(number)?;
    let held = match kind {
        Kind::Judge => judged(input, Form::Given, pools)?,
        Kind::Large => judged(input, Form::Uniform, pools)?,
        Kind::Repair => repaired(input, Form::Given, pools)?,
        Kind::Wide => repaired(input, Form::Uniform, pools)?,
        Kind::Search => searched(input, pools)?,
        Kind::Read => read(input),
    };
    Ok(Some(Record { kind, held }))
}
