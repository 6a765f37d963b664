// The judgement.
use crate::answer::{Answer, Held, told};
use crate::pool::{Pools, lend};
use crate::question::{Form, Question};
use records::{Unknown, Words};

pub(crate) fn judged(
    input: &mut Words<'_>,
    form: Form,
    pools: &mut Pools<'_>,
) -> Result<Held, Unknown> {
    let question = Question::next(input, form);
    question.load(input, form, pools)?;
    let words = &mut *pools.words;
    let map = &mut *pools.map;
    let permit = &mut *pools.permit;
    let wanted = Answer::next(input);
    let got = answered(
        question,
        wanted,
        lend(words, question.words)?,
        lend(map, question.map)?,
        lend(permit, question.permit.bytes)?,
    );
    Ok(Held { wanted, got })
}

// Two functions are asked: the answer is the exported one's if that is wrong, or else the other's.
fn answered(question: Question, wanted: Answer, words: &[u8], map: &[u8], permit: &[u8]) -> Answer {
    let level = question.level;
    let sli = question.sli;
    let exported = Answer::unpacked(upborliya::upborliya_judge(level, sli, words, map, permit));
    if exported == wanted {
        return told(gate::judge(level, sli != 0, words, map, permit));
    }
    exported
}
