// Where the library and the model part: there is none where nothing differs.
use std::{fmt, mem};

// What a place is in.
#[derive(Clone, Copy)]
pub enum Part {
    Answer,
    Channel,
    Semaphore,
}

#[derive(Clone, Copy)]
pub enum Difference {
    Word {
        part: Part,
        place: usize,
        wanted: u32,
        got: u32,
    },
    // A kind of record or operation that the format does not have.
    Form {
        number: u32,
    },
}

impl fmt::Display for Difference {
    fn fmt<W: fmt::Write>(&self, f: &mut fmt::Formatter<W>) -> fmt::Result {
        match *self {
            Difference::Word {
                part,
                place,
                wanted,
                got,
            } => {
                match part {
                    Part::Answer => writeln!(f, "  answer's word {place}")?,
                    Part::Channel => writeln!(f, "  channel's word {place}")?,
                    Part::Semaphore => writeln!(f, "  semaphore word {place}")?,
                }
                writeln!(f, "  wanted {wanted}")?;
                writeln!(f, "  got {got}")
            }
            Difference::Form { number } => {
                writeln!(f, "  no such kind {number}")?;
                writeln!(f, "  wanted 0")?;
                writeln!(f, "  got {number}")
            }
        }
    }
}

// The first of the wanted words that `got` has otherwise.
pub(crate) fn compared(part: Part, wanted: &[u32], got: &[u32]) -> Option<Difference> {
    for (place, (wanted, got)) in wanted.iter().zip(got).enumerate() {
        if wanted != got {
            return Some(Difference::Word {
                part,
                place,
                wanted: *wanted,
                got: *got,
            });
        }
    }
    None
}

// Holds one semaphore word to the model's, and sets it back to 0. Past the end it is 0.
pub(crate) fn far(semaphores: &mut [u32], place: usize, wanted: u32) -> Option<Difference> {
    let got = match semaphores.get_mut(place) {
        Some(word) => mem::take(word),
        None => 0,
    };
    if got == wanted {
        return None;
    }
    Some(Difference::Word {
        part: Part::Semaphore,
        place,
        wanted,
        got,
    })
}
