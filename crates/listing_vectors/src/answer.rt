// Answers: the model's, and the library's.
use crate::reader::through_reader;
use listing::{End, Listed};
use records::read_words;
use std::fmt;
use std::io::{self, Read};
use word::{Reading, Setting, Why};

// An item's number, a reading's with its values, a why, and the place after it. What an answer lacks is 0.
#[derive(Clone, Copy, PartialEq, Eq, Default)]
pub struct Answer {
    pub item: u32,
    pub reading: u32,
    pub a: u32,
    pub b: u32,
    pub c: u32,
    pub why: u32,
    pub place: usize,
}

impl Answer {
    // The model's, of seven words.
    pub(crate) fn next(input: &mut impl Read) -> io::Result<Answer> {
        let mut bytes = [0u8; 28];
        let mut words = read_words(input, &mut bytes)?;
        Ok(Answer {
            item: words.next_word(),
            reading: words.next_word(),
            a: words.next_word(),
            b: words.next_word(),
            c: words.next_word(),
            why: words.next_word(),
            place: words.next_word() as usize,
        })
    }
}

impl fmt::Display for Answer {
    fn fmt<W: fmt::Write>(&self, f: &mut fmt::Formatter<W>) -> fmt::Result {
        writeln!(f, "    item {}", self.item)?;
        writeln!(f, "    reading {}", self.reading)?;
        writeln!(f, "    value {}", self.a)?;
        writeln!(f, "    value {}", self.b)?;
        writeln!(f, "    value {}", self.c)?;
        writeln!(f, "    why {}", self.why)?;
        writeln!(f, "    place {}", self.place)
    }
}

// A wrong answer: which of its record's it is, counted from 1, what was wanted and what was got.
#[derive(Clone, Copy)]
pub struct Miss {
    pub answer: u32,
    pub wanted: Answer,
    pub got: Answer,
}

impl fmt::Display for Miss {
    fn fmt<W: fmt::Write>(&self, f: &mut fmt::Formatter<W>) -> fmt::Result {
        let wanted = self.wanted;
        let got = self.got;
        writeln!(f, "  answer {}", self.answer)?;
        write!(f, "  wanted\n{wanted}  got\n{got}")
    }
}

// The library's. Two functions are asked: the answer is that of `list_at` if that is wrong, or else the
// reader's.
pub(crate) fn answered(setting: Setting, words: &[u32], place: usize, wanted: Answer) -> Answer {
    let listed = told(listing::list_at(setting, words, place));
    if listed == wanted {
        return told(through_reader(setting, words, place));
    }
    listed
}

fn told(listed: Listed) -> Answer {
    let place = listed.place;
    match listed.item {
        Ok(reading) => told_reading(reading, place),
        Err(End::Past) => without(2, 0, place),
        Err(End::Reserved { why }) => reserved(why, place),
        Err(End::Short) => without(4, 0, place),
        Err(End::Refused { refusal }) => without(5, u32::from(refusal.number), place),
    }
}

// What is no command: an end, or a refusal, whose number is its value.
fn without(item: u32, a: u32, place: usize) -> Answer {
    Answer {
        item,
        a,
        place,
        ..Answer::default()
    }
}

// The end at a reserved word.
fn reserved(why: Why, place: usize) -> Answer {
    Answer {
        item: 3,
        why: u32::from(why.number()),
        place,
        ..Answer::default()
    }
}

fn command(reading: u32, a: u32, b: u32, c: u32, place: usize) -> Answer {
    Answer {
        item: 1,
        reading,
        a,
        b,
        c,
        why: 0,
        place,
    }
}

// A listed command is neither reserved nor refused: were it so, no answer of the model would be the same.
fn told_reading(reading: Reading, place: usize) -> Answer {
    match reading {
        Reading::Increasing {
            count,
            subchannel,
            method,
        } => command(1, count, subchannel, method, place),
        Reading::NonIncreasing {
            count,
            subchannel,
            method,
        } => command(2, count, subchannel, method, place),
        Reading::Sli { mask } => command(3, mask, 0, 0, place),
        Reading::Return => command(4, 0, 0, 0, place),
        Reading::Long {
            subchannel,
            method,
            count,
        } => command(5, subchannel, method, count, place),
        Reading::OldJump { target } => command(6, target, 0, 0, place),
        Reading::Jump { target } => command(7, target, 0, 0, place),
        Reading::Call { target } => command(8, target, 0, 0, place),
        Reading::Reserved { .. } => command(9, 0, 0, 0, place),
        Reading::Refused { refusal } => command(10, u32::from(refusal.number), 0, 0, place),
    }
}
