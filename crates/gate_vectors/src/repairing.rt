// The repair, asked by its function for C.
use crate::answer::{Answer, Held};
use crate::content::{UNTOUCHED, bytes_differ, entries_differ, uniform_differ};
use crate::pool::{Pools, lend};
use crate::question::{Form, Question};
use records::{Unknown, Words};

// What is asked of the repair: beside the question, how many entries are lent as rooms.
#[derive(Clone, Copy)]
struct Asked {
    question: Question,
    list: usize,
    work: usize,
}

impl Asked {
    fn next(input: &mut Words<'_>, form: Form) -> Asked {
        Asked {
            question: Question::next(input, form),
            list: input.next_word() as usize,
            work: input.next_word() as usize,
        }
    }

    // At most 300 entries of the list's room and 600 of the work room, or of a uniform one as many as there are.
    fn fits(self, form: Form) -> bool {
        match form {
            Form::Given => self.list <= 300 && self.work <= 600,
            Form::Uniform => true,
        }
    }
}

// What the library left is held to what a record gives: all of it, or of a uniform one the map alone.
pub(crate) fn repaired(
    input: &mut Words<'_>,
    form: Form,
    pools: &mut Pools<'_>,
) -> Result<Held, Unknown> {
    let asked = Asked::next(input, form);
    if !asked.fits(form) {
        return Err(Unknown);
    }
    let question = asked.question;
    question.load(input, form, pools)?;
    let words = &mut *pools.words;
    let map = &mut *pools.map;
    let permit = &mut *pools.permit;
    let list = &mut *pools.list;
    let work = &mut *pools.work;
    let map = lend(map, question.map)?;
    let list = lend(list, asked.list)?;
    let work = lend(work, asked.work)?;
    list.fill(UNTOUCHED);
    work.fill(UNTOUCHED);
    let packed = upborliya::upborliya_repair(
        question.level,
        question.sli,
        lend(words, question.words)?,
        map,
        lend(permit, question.permit.bytes)?,
        list,
        work,
    );
    let wanted = next_wanted(input);
    let left = match form {
        Form::Given => Left {
            map: bytes_differ(input, map),
            list: entries_differ(input, list),
            work: entries_differ(input, work),
        },
        Form::Uniform => Left {
            map: uniform_differ(input, map),
            list: None,
            work: None,
        },
    };
    Ok(Held {
        wanted,
        got: got(packed, left),
    })
}

// What was wanted of an answer in one number: a refusal and a count, and nothing else.
pub(crate) fn next_wanted(input: &mut Words<'_>) -> Answer {
    Answer::new(0, input.next_word(), input.next_word(), 0)
}

// Where what was left in the map and the rooms is another than the model's.
#[derive(Clone, Copy)]
struct Left {
    map: Option<u32>,
    list: Option<u32>,
    work: Option<u32>,
}

// What was got, with the first difference in what was left: as its reason 1 for the map, 2 for the list, 3
// for the work room, and as its place where, counted from 1. Bits that have to be 0 are taken as parts of
// the refusal and the place.
fn got(packed: u64, left: Left) -> Answer {
    let [below, refusal, next, c0, c1, a0, a1, a2] = packed.to_le_bytes();
    let count = u32::from_le_bytes([c0, c1, 0, 0]);
    let above = u32::from_le_bytes([a0, a1, a2, 0]);
    if below != 0 || above != 0 {
        return Answer::new(
            4,
            u32::from_le_bytes([below, refusal, next, 0]),
            count,
            above,
        );
    }
    let refusal = u32::from_le_bytes([refusal, next, 0, 0]);
    if let Some(place) = left.map {
        return Answer::new(1, refusal, count, place);
    }
    if let Some(place) = left.list {
        return Answer::new(2, refusal, count, place);
    }
    if let Some(place) = left.work {
        return Answer::new(3, refusal, count, place);
    }
    Answer::new(0, refusal, count, 0)
}
