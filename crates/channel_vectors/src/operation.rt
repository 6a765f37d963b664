// What is done with a channel, held to the model's answer: that comes next on standard input.
use crate::answer::{next_answer, refused};
use crate::difference::{Difference, Part, compared, far};
use crate::outcome::Outcome;
use crate::pair::Pair;
use crate::pool::{Lent, MOST_GIVEN, Memory};
use records::Words;

#[derive(Clone, Copy)]
pub enum Operation {
    Put = 1,
    Store,
    Step,
}

impl TryFrom<u8> for Operation {
    type Error = Difference;

    fn try_from(number: u8) -> Result<Operation, Difference> {
        match number {
            1 => Ok(Operation::Put),
            2 => Ok(Operation::Store),
            3 => Ok(Operation::Step),
            _ => Err(Difference::Form {
                number: u32::from(number),
            }),
        }
    }
}

// The operation's number, and how many words of the channel and of the semaphores are others after it.
#[derive(Clone, Copy)]
pub struct Header {
    pub number: u8,
    pub deltas: u8,
    pub changes: u16,
}

impl Header {
    pub(crate) fn next(input: &mut Words<'_>) -> Header {
        let [number, deltas, low, high] = input.next_word().to_le_bytes();
        Header {
            number,
            deltas,
            changes: u16::from_le_bytes([low, high]),
        }
    }

    // Whether a header is of the operation that its record is.
    pub(crate) fn of(self, operation: Operation) -> Option<Difference> {
        if self.number == operation as u8 {
            return None;
        }
        Some(Difference::Form {
            number: u32::from(self.number),
        })
    }
}

// Whether an operation of a run was a step, and where library and model part.
#[derive(Clone, Copy)]
pub struct Done {
    pub step: bool,
    pub difference: Option<Difference>,
}

// The next operation of a run.
pub(crate) fn next_operation(
    input: &mut Words<'_>,
    pair: &mut Pair,
    memory: &mut Memory<'_>,
) -> Done {
    let header = Header::next(input);
    match Operation::try_from(header.number) {
        Ok(Operation::Put) => {
            let put = input.next_word();
            Done {
                step: false,
                difference: set(input, pair, put, header),
            }
        }
        Ok(Operation::Store) => {
            store(input, pair, memory.semaphores);
            Done {
                step: false,
                difference: None,
            }
        }
        Ok(Operation::Step) => {
            let lent = Lent::next_packed(input);
            Done {
                step: true,
                difference: step(input, pair, header, lent, memory),
            }
        }
        Err(unknown) => Done {
            step: false,
            difference: Some(unknown),
        },
    }
}

// Put is set.
pub(crate) fn set(
    input: &mut Words<'_>,
    pair: &mut Pair,
    put: u32,
    header: Header,
) -> Option<Difference> {
    let outcome = Outcome::put_set(pair.got, put);
    let right = refused(input.next_word());
    held(input, pair, outcome, right, header)
}

// What came of an operation, held to the model's answer, and to its channel after the words that follow.
fn held(
    input: &mut Words<'_>,
    pair: &mut Pair,
    outcome: Outcome,
    right: [u32; 6],
    header: Header,
) -> Option<Difference> {
    pair.got = outcome.channel;
    for _ in 0..header.deltas {
        pair.next_delta(input);
    }
    compared(Part::Answer, &right, &outcome.answer).or(pair.channel_held())
}

// The host stores a semaphore word.
fn store(input: &mut Words<'_>, pair: &mut Pair, semaphores: &mut [u32]) {
    let place = input.next_word() as usize;
    let word = input.next_word();
    if let Some(semaphore) = semaphores.get_mut(place) {
        *semaphore = word;
    }
    pair.set_semaphore(place, word);
}

pub(crate) fn step(
    input: &mut Words<'_>,
    pair: &mut Pair,
    header: Header,
    lent: Lent,
    memory: &mut Memory<'_>,
) -> Option<Difference> {
    let outcome = Outcome::stepped(pair.got, lent, memory);
    let right = next_answer(input);
    let mut difference = held(input, pair, outcome, right, header);
    for _ in 0..header.changes {
        difference = difference.or(next_change(input, pair, memory.semaphores));
    }
    difference
}

// A semaphore word that is another now. One of the first is the model's, and compared later; one past them here.
fn next_change(
    input: &mut Words<'_>,
    pair: &mut Pair,
    semaphores: &mut [u32],
) -> Option<Difference> {
    let place = input.next_word() as usize;
    let word = input.next_word();
    if MOST_GIVEN <= place {
        return far(semaphores, place, word);
    }
    pair.set_semaphore(place, word);
    None
}
