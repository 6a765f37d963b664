// Runs the readings, writings and special methods that the model made: each record on standard
// input is a question and the model's answer, in little-endian words. Prints how many there were of
// each kind and how many answers differ, and of the first that does its place and its words.
#![tactic(auto)]

mod answer;
mod constant;
mod question;
mod tally;

use question::{Kind, Record};
use records::MOST_RECORDS;
use std::io::{self, BufReader, Read};
use tally::Tally;

// One word more than may be lent, so that SIZE is tried.
const SPACE_WORDS: usize = 1_048_577;

fn main(rt: HostRuntime) -> io::Result<()> {
    constant::constants();
    let mut input = BufReader::new(rt.alloc(), rt.reader())?;
    let mut space = vec![in rt.alloc(); 0u32; SPACE_WORDS]?;
    let tally = run(&mut input, &mut space)?;
    print!(rt; "{tally}")
}

fn run(input: &mut impl Read, space: &mut [u32]) -> io::Result<Tally> {
    let mut tally = Tally::default();
    for place in 1..=MOST_RECORDS {
        let Some(record) = Record::next(input)? else {
            break;
        };
        tally.count(record.kind);
        if !right(record, space) {
            tally.miss(place, record);
        }
    }
    Ok(tally)
}

fn right(record: Record, space: &mut [u32]) -> bool {
    let words = record.words;
    match record.kind {
        Kind::Read => answer::right_read(words),
        Kind::ReadAt => answer::right_read_at(words, space),
        Kind::Write => answer::right_write(words),
        Kind::Present => answer::right_present(words),
        Kind::Unknown => false,
    }
}
