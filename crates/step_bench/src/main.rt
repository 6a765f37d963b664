// Makes steps of a channel, for the benchmark (bench/run). On standard input are the level, the number of
// steps, of which at most 4,000,000 are made, and then the channel's words, all little-endian. Prints how
// many steps had each kind of event, by the kind's number, and how many were refused, as kind 0; and the
// last read address.
#![tactic(auto)]

use channel::Channel;
use event::{Event, Kind};
use records::{Words, read_words};
use std::alloc::Allocator;
use std::fmt;
use std::io::{self, Read};
use word::Refusal;

const MOST_WORDS: usize = 1_048_576;

// How many bytes are read at once, and how often: as many as the most words have.
const PIECE: usize = 65_536;

const PIECES: usize = 4 * MOST_WORDS / PIECE;

// So that every input comes to an end soon.
const MOST_STEPS: u32 = 4_000_000;

// The one object has an engine, so that methods can be forwarded.
const TABLE: [u32; 4] = [1, 1, 0x1000, 0];

fn main(rt: HostRuntime) -> io::Result<()> {
    let mut input = rt.reader();
    let mut asked = [0; 8];
    read_words(&mut input, &mut asked)?;
    let mut asked = Words { rest: &asked };
    let level = asked.next_word();
    let steps = asked.next_word().min(MOST_STEPS);
    let words = load(rt.alloc(), &mut input)?;
    let bench = run(level, steps, &words);
    print!(rt; "{bench}")
}

// The words to the input's end. Their room is taken once, and the bytes go through one piece, so that the words lie in
// memory once.
fn load<A: Allocator>(alloc: A, input: &mut impl Read) -> io::Result<Vec<u32, A>> {
    let mut words = Vec::with_capacity(alloc, MOST_WORDS)?;
    let mut bytes = [0; PIECE];
    for _ in 0..PIECES {
        words.extend(read_words(input, &mut bytes)?)?;
    }
    Ok(words)
}

// The clock counts the steps.
fn run(level: u32, steps: u32, words: &[u32]) -> Bench<'_> {
    let mut bench = Bench {
        level,
        words,
        semaphores: [0; 16],
        channel: opened(level, words.len()),
        counts: [0; 17],
    };
    for clock in 0..steps {
        bench.step(u64::from(clock));
    }
    bench
}

#[derive(Drop)]
struct Bench<'a> {
    level: u32,
    words: &'a [u32],
    semaphores: [u32; 16],
    channel: Channel,
    counts: [u32; 17],
}

impl Bench<'_> {
    // A channel that is idle, stopped or refused is opened again, so that few words give many steps too.
    fn step(&mut self, clock: u64) {
        let stepped = self
            .channel
            .step(self.words, &[], &TABLE, &mut self.semaphores, clock);
        let kind = kind_of(stepped.answer);
        if let Some(count) = self.counts.get_mut(number_of(kind) as usize) {
            *count = count.wrapping_add(1);
        }
        self.channel = match kind {
            None | Some(Kind::Idle) | Some(Kind::Stopped) => opened(self.level, self.words.len()),
            Some(_) => stepped.channel,
        };
    }
}

impl fmt::Display for Bench<'_> {
    fn fmt<W: fmt::Write>(&self, f: &mut fmt::Formatter<W>) -> fmt::Result {
        for (number, count) in self.counts.iter().enumerate() {
            writeln!(f, "{number} {count}")?;
        }
        writeln!(f, "get {}", self.channel.pusher.get)
    }
}

// A fresh channel in NV04-style, with put at the end of so many words.
fn opened(level: u32, words: usize) -> Channel {
    let opened = Channel::open(level, 0, 0, false, 0, 0xffff_ffff, &TABLE);
    let put = opened.channel.set_put((words % 0x4000_0000 * 4) as u32);
    put.channel
}

// None of a step that was refused.
fn kind_of(answer: Result<Event, Refusal>) -> Option<Kind> {
    answer.ok().map(event_kind)
}

fn event_kind(event: Event) -> Kind {
    match event {
        Event::Plain { kind } => kind,
        Event::Of { kind, .. } => kind,
    }
}

fn number_of(kind: Option<Kind>) -> u32 {
    match kind {
        Some(kind) => kind.number(),
        None => 0,
    }
}
