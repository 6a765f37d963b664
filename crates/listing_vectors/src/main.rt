// Runs the listings that the model made: each record on standard input is a question and the model's
// answers, in little-endian words. Prints how many there were of each kind and how many have a wrong
// answer, and of the first that does its place, which answer, what was wanted and what was got.
#![tactic(auto)]

mod answer;
mod question;
mod reader;
mod record;
mod tally;

use question::{LARGE_WORDS, Unread};
use record::next_record;
use records::MOST_RECORDS;
use std::io::{self, BufReader, Read};
use tally::Tally;

fn main(rt: HostRuntime) -> io::Result<()> {
    let mut input = BufReader::new(rt.alloc(), rt.reader())?;
    let mut pool = vec![in rt.alloc(); 0u32; LARGE_WORDS]?;
    let tally = run(&mut input, &mut pool)?;
    print!(rt; "{tally}")
}

// The input's end reads as kind 0, which ends the run, and so does a record that the format does not have.
fn run(input: &mut impl Read, pool: &mut [u32]) -> io::Result<Tally> {
    let mut tally = Tally::default();
    for place in 1..=MOST_RECORDS {
        match next_record(input, pool) {
            Ok(Some(record)) => tally.count(place, record),
            Ok(None) => break,
            Err(Unread::Unknown) => {
                tally.count_unknown();
                break;
            }
            Err(Unread::Failed { error }) => return Err(error),
        }
    }
    Ok(tally)
}
