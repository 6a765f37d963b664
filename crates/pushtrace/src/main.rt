// Prints what a channel does with the command words on standard input, step by step. What a line says,
// when the run ends and what is refused is the library's, `trace`. Where it can't read or write it says so
// on standard error, and its exit status is 0 there too.
#![tactic(auto)]

mod input;

use std::io::{self, Write};
use trace::{BUDGET, Line, MOST_BYTES, MOST_TEXT, Stage, Trace};

// One byte more than is taken, so that more is seen.
const MOST_READ: usize = MOST_BYTES + 1;

const MOST_WORDS: usize = MOST_BYTES / 4;

const SEMAPHORES: usize = 1_024;

// A line for each step, and the end line.
const MOST_LINES: u32 = BUDGET + 1;

fn main(rt: HostRuntime) -> io::Result<()> {
    let mut bytes = vec![in rt.alloc(); 0u8; MOST_READ]?;
    let mut words = vec![in rt.alloc(); 0u32; MOST_WORDS]?;
    let mut semaphores = vec![in rt.alloc(); 0u32; SEMAPHORES]?;
    let Ok(length) = input::read(&mut rt.stdin(), &mut bytes) else {
        complain(&rt, "pushtrace: standard input can't be read\n");
        return Ok(());
    };
    if print_trace(&rt, &bytes[..length], &mut words, &mut semaphores).is_err() {
        complain(&rt, "pushtrace: standard output can't be written\n");
    }
    Ok(())
}

// Prints the trace of the words that the bytes are.
fn print_trace(
    rt: &impl Print,
    bytes: &[u8],
    words: &mut [u32],
    semaphores: &mut [u32],
) -> io::Result<()> {
    let count = trace::words_in(bytes, words).min(words.len());
    tell(rt, trace::begin(bytes.len()), &words[..count], semaphores)
}

// Prints the lines of a run. It ends at the first that can't be written.
fn tell(rt: &impl Print, trace: Trace, words: &[u32], semaphores: &mut [u32]) -> io::Result<()> {
    let mut trace = trace;
    for _ in 0..MOST_LINES {
        let told = trace::next_line(trace, words, semaphores);
        print(rt, told.line)?;
        trace = told.trace;
        if let Stage::Over = trace.stage {
            break;
        }
    }
    Ok(())
}

fn print(rt: &impl Print, line: Line) -> io::Result<()> {
    let end = line.length.min(MOST_TEXT);
    io::writer(rt).write_all(&line.bytes[..end])
}

fn complain(rt: &impl Eprint, message: &str) {
    let _ = eprint!(rt; "{message}");
}
