// The records, each held to the library.
use crate::answer::{Answer, Miss, answered};
use crate::question::{Kind, Question, Unread, load};
use records::{Unknown, read_words};
use std::io::{self, Read};
use word::Setting;

// A record's kind, and its first wrong answer.
#[derive(Clone, Copy)]
pub struct Record {
    pub kind: Kind,
    pub miss: Option<Miss>,
}

// The next record, whose words are lent at the front of the pool. Its kind and its question have six words.
pub(crate) fn next_record(
    input: &mut impl Read,
    pool: &mut [u32],
) -> Result<Option<Record>, Unread> {
    let mut bytes = [0u8; 24];
    let mut words = read_words(input, &mut bytes)?;
    let number = words.next_word();
    if number == 0 {
        return Ok(None);
    }
    let kind = Kind::try_from(number)?;
    let question = Question::next(&mut words);
    let lent = pool.get_mut(..question.words).ok_or(Unknown)?;
    let answers = load(input, kind, lent)?;
    let miss = first_miss(input, question.setting, lent, question.place, answers)?;
    Ok(Some(Record { kind, miss }))
}

// The model's answers come next. After a wrong one the rest are read, so that the next record is found, and not
// asked for.
fn first_miss(
    input: &mut impl Read,
    setting: Setting,
    words: &[u32],
    place: usize,
    answers: u32,
) -> io::Result<Option<Miss>> {
    let mut place = place;
    let mut miss = None;
    for answer in 1..=answers {
        let wanted = Answer::next(input)?;
        if miss.is_none() {
            let got = answered(setting, words, place, wanted);
            if got != wanted {
                miss = Some(Miss {
                    answer,
                    wanted,
                    got,
                });
            }
            place = got.place;
        }
    }
    Ok(miss)
}
