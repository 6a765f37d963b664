// A question put to the library, its answer as numbers, and whether those are the model's.
use crate::question::RECORD_WORDS;
use word::{Level, Mode, Reading, Refusal, Setting, Unwritten, Why};

// What the output holds before each writing.
const BEFORE: [u32; 4] = [0xa5a5_0000, 0xa5a5_0001, 0xa5a5_0002, 0xa5a5_0003];

// A reading's number, values and why, those that it lacks 0.
#[derive(Clone, Copy, PartialEq, Eq)]
struct Told {
    number: u32,
    a: u32,
    b: u32,
    c: u32,
    why: u32,
}

pub(crate) fn right_read(q: [u32; RECORD_WORDS]) -> bool {
    let [_, _, _, word, next, number, a, b, c, why, ..] = q;
    let wanted = Told {
        number,
        a,
        b,
        c,
        why,
    };
    told_reading(word::read(setting_of(q), word, next)) == wanted
}

// `space` lends the words: the record's four, and zeros after them.
pub(crate) fn right_read_at(q: [u32; RECORD_WORDS], space: &mut [u32]) -> bool {
    for (word, given) in space.iter_mut().zip(&q[6..10]) {
        *word = *given;
    }
    let [
        _,
        _,
        _,
        lent,
        low,
        high,
        _,
        _,
        _,
        _,
        number,
        a,
        b,
        c,
        why,
        _,
    ] = q;
    let wanted = Told {
        number,
        a,
        b,
        c,
        why,
    };
    let place = (high as usize) << 32 | low as usize;
    told_at(setting_of(q), space, lent as usize, place) == wanted
}

// What stands at a place of the first `lent` words. (No record asks for more than there are.)
fn told_at(setting: Setting, space: &[u32], lent: usize, place: usize) -> Told {
    match space.get(..lent) {
        Some(words) => told_place(word::read_at(setting, words, place)),
        None => telling(11, 0, 0, 0),
    }
}

pub(crate) fn right_write(q: [u32; RECORD_WORDS]) -> bool {
    let [
        _,
        _,
        _,
        number,
        a,
        b,
        c,
        why,
        room,
        refusal,
        count,
        told_why,
        ..
    ] = q;
    let mut out = BEFORE;
    let command = command_of(number, a, b, c, why);
    let wanted = Told {
        number: refusal,
        a: count,
        b: 0,
        c: 0,
        why: told_why,
    };
    told_write(setting_of(q), command, &mut out, room as usize) == wanted && out[..] == q[12..]
}

// What comes of writing into the first `room` words. (No record asks for more than there are.)
fn told_write(setting: Setting, command: Reading, out: &mut [u32], room: usize) -> Told {
    match out.get_mut(..room) {
        Some(out) => told_written(word::write(setting, command, out)),
        None => telling(0, 0, 0, 0),
    }
}

pub(crate) fn right_present(q: [u32; RECORD_WORDS]) -> bool {
    let [number, method, present, ..] = q;
    word::present(Level { number }, method) == (present == 1)
}

fn setting_of(q: [u32; RECORD_WORDS]) -> Setting {
    Setting {
        level: Level { number: q[0] },
        mode: Mode { number: q[1] },
        sli: q[2] != 0,
    }
}

fn telling(number: u32, a: u32, b: u32, c: u32) -> Told {
    Told {
        number,
        a,
        b,
        c,
        why: 0,
    }
}

// What says nothing but its why.
fn explaining(number: u32, why: Why) -> Told {
    Told {
        number,
        a: 0,
        b: 0,
        c: 0,
        why: u32::from(why.number()),
    }
}

fn told_reading(reading: Reading) -> Told {
    match reading {
        Reading::Increasing {
            count,
            subchannel,
            method,
        } => telling(1, count, subchannel, method),
        Reading::NonIncreasing {
            count,
            subchannel,
            method,
        } => telling(2, count, subchannel, method),
        Reading::Sli { mask } => telling(3, mask, 0, 0),
        Reading::Return => telling(4, 0, 0, 0),
        Reading::Long {
            subchannel,
            method,
            count,
        } => telling(5, subchannel, method, count),
        Reading::OldJump { target } => telling(6, target, 0, 0),
        Reading::Jump { target } => telling(7, target, 0, 0),
        Reading::Call { target } => telling(8, target, 0, 0),
        Reading::Reserved { why } => explaining(9, why),
        Reading::Refused { refusal } => telling(10, u32::from(refusal.number), 0, 0),
    }
}

fn told_place(place: Result<Option<Reading>, Refusal>) -> Told {
    match place {
        Ok(Some(reading)) => told_reading(reading),
        Ok(None) => telling(11, 0, 0, 0),
        Err(refusal) => telling(10, u32::from(refusal.number), 0, 0),
    }
}

// The refusal, 0 for none, how many words were written, and the why of FORM.
fn told_written(written: Result<usize, Unwritten>) -> Told {
    match written {
        Ok(count) => telling(0, (count % 0x100) as u32, 0, 0),
        Err(Unwritten::Refused { refusal }) => telling(u32::from(refusal.number), 0, 0, 0),
        Err(Unwritten::Form { why }) => explaining(12, why),
    }
}

fn command_of(number: u32, a: u32, b: u32, c: u32, why: u32) -> Reading {
    match number {
        1 => Reading::Increasing {
            count: a,
            subchannel: b,
            method: c,
        },
        2 => Reading::NonIncreasing {
            count: a,
            subchannel: b,
            method: c,
        },
        3 => Reading::Sli { mask: a },
        4 => Reading::Return,
        5 => Reading::Long {
            subchannel: a,
            method: b,
            count: c,
        },
        6 => Reading::OldJump { target: a },
        7 => Reading::Jump { target: a },
        8 => Reading::Call { target: a },
        10 => Reading::Refused {
            refusal: Refusal {
                number: (a % 0x100) as u8,
            },
        },
        _ => Reading::Reserved {
            why: Why::try_from(why).unwrap_or(Why::Form),
        },
    }
}
