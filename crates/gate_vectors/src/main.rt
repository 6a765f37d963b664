// Runs the judgements, repairs, searches and readings that the model made: each record on standard input is a question and the model's
// answer, in little-endian words. Prints how many there were of each kind and how many answers differ,
// and of the first that does its place, what was wanted and what was got.
#![tactic(auto)]

mod answer;
mod constant;
mod content;
mod judging;
mod pool;
mod question;
mod reading;
mod record;
mod repairing;
mod searching;
mod tally;

use pool::{LARGE_MAP, LARGE_WORDS, MOST_LIST, MOST_PERMIT, MOST_WORK, Pools};
use record::next_record;
use records::{MOST_RECORDS, Unknown, Words};
use std::io::{self, Read};
use tally::Tally;

fn main(rt: HostRuntime) -> io::Result<()> {
    constant::constants();
    let mut bytes = Vec::new(rt.alloc());
    rt.stdin().read_to_end(&mut bytes)?;
    let mut words = vec![in rt.alloc(); 0u8; LARGE_WORDS]?;
    let mut map = vec![in rt.alloc(); 0u8; LARGE_MAP]?;
    let mut permit = vec![in rt.alloc(); 0u8; MOST_PERMIT]?;
    let mut list = vec![in rt.alloc(); 0u64; MOST_LIST]?;
    let mut work = vec![in rt.alloc(); 0u64; MOST_WORK]?;
    let mut pools = Pools {
        words: &mut words,
        map: &mut map,
        permit: &mut permit,
        list: &mut list,
        work: &mut work,
    };
    let tally = run(&mut Words { rest: &bytes }, &mut pools);
    print!(rt; "{tally}")
}

// A record that the format does not have ends the run.
fn run(input: &mut Words<'_>, pools: &mut Pools<'_>) -> Tally {
    let mut tally = Tally::default();
    for place in 1..=MOST_RECORDS {
        match next_record(input, pools) {
            Ok(Some(record)) => tally.count(place, record),
            Ok(None) => break,
            Err(Unknown) => {
                tally.count_unknown();
                break;
            }
        }
    }
    tally
}
