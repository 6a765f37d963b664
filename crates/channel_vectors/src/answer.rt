// An answer as six words, those that it lacks 0: the refusal's number, the event's kind, whether it
// has a method, and the method's three. Of an opening the second is the repeated entry. It is a row of words, since
// a difference is told by its place.
use channel::Unopened;
use event::{Event, Kind, Method};
use records::Words;
use word::Refusal;

pub(crate) fn refused(number: u32) -> [u32; 6] {
    [number, 0, 0, 0, 0, 0]
}

fn told_refusal(refusal: Refusal) -> [u32; 6] {
    refused(u32::from(refusal.number))
}

pub(crate) fn repeated(number: u32, entry: u32) -> [u32; 6] {
    [number, entry, 0, 0, 0, 0]
}

pub(crate) fn told_opening(opening: Result<(), Unopened>) -> [u32; 6] {
    match opening {
        Ok(()) => refused(0),
        Err(Unopened::Refused { refusal }) => told_refusal(refusal),
        Err(Unopened::Duplicate { entry }) => told_repeat(entry),
    }
}

fn told_repeat(entry: usize) -> [u32; 6] {
    repeated(
        u32::from(Refusal::DUPLICATE.number),
        (entry % 0x1_0000_0000) as u32,
    )
}

pub(crate) fn told_put(answer: Result<(), Refusal>) -> [u32; 6] {
    match answer {
        Ok(()) => refused(0),
        Err(refusal) => told_refusal(refusal),
    }
}

pub(crate) fn told_step(answer: Result<Event, Refusal>) -> [u32; 6] {
    match answer {
        Ok(event) => told_event(event),
        Err(refusal) => told_refusal(refusal),
    }
}

fn told_event(event: Event) -> [u32; 6] {
    match event {
        Event::Plain { kind } => [0, kind.number(), 0, 0, 0, 0],
        Event::Of { kind, method } => of(kind, method),
    }
}

fn of(kind: Kind, method: Method) -> [u32; 6] {
    [
        0,
        kind.number(),
        1,
        method.subchannel,
        method.method,
        method.parameter,
    ]
}

// The model's answer to a step: a word of refusal, kind and whether a method follows, and the method.
pub(crate) fn next_answer(input: &mut Words<'_>) -> [u32; 6] {
    let [refusal, kind, low, high] = input.next_word().to_le_bytes();
    let method = u32::from_le_bytes([low, high, 0, 0]);
    let mut answer = [u32::from(refusal), u32::from(kind), method, 0, 0, 0];
    if method != 0 {
        for word in &mut answer[3..] {
            *word = input.next_word();
        }
    }
    answer
}
