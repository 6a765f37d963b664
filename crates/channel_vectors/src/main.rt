// Runs the openings, runs of steps, single steps and puts that the model made: each record on standard
// input is a question and the model's answer, in little-endian words. Prints how many there were of
// each kind and how many answers differ, and of the first that does its place and what differs.
#![tactic(auto)]

mod answer;
mod constant;
mod difference;
mod kind;
mod layout;
mod opening;
mod operation;
mod outcome;
mod pair;
mod pool;
mod run;
mod single;
mod state;
mod tally;
mod verdict;

use kind::Kind;
use pool::{LARGE_WORDS, MOST_GIVEN, Pools, TABLE_WORDS};
use records::{MOST_RECORDS, Unknown, Words};
use std::io::{self, Read};
use tally::Tally;

fn main(rt: HostRuntime) -> io::Result<()> {
    constant::constants();
    let mut bytes = Vec::new(rt.alloc());
    rt.stdin().read_to_end(&mut bytes)?;
    let mut small = vec![in rt.alloc(); 0u32; MOST_GIVEN]?;
    let mut large = vec![in rt.alloc(); 0u32; LARGE_WORDS]?;
    let mut table = vec![in rt.alloc(); 0u32; TABLE_WORDS]?;
    let mut pools = Pools {
        small: &mut small,
        large: &mut large,
        table: &mut table,
    };
    let tally = tallied(&mut Words { rest: &bytes }, &mut pools);
    print!(rt; "{tally}")
}

// The input's end, which reads as kind 0, ends the run, and so does a record of a kind that there is not.
fn tallied(input: &mut Words<'_>, pools: &mut Pools<'_>) -> Tally {
    let mut tally = Tally::default();
    for place in 1..=MOST_RECORDS {
        let number = input.next_word();
        if number == 0 {
            break;
        }
        match Kind::try_from(number) {
            Ok(kind) => tally.count(place, kind, kind.next_held(input, pools)),
            Err(Unknown) => {
                tally.count_unknown(place, number);
                break;
            }
        }
    }
    tally
}
