// A record of an opening.
use crate::answer::repeated;
use crate::difference::{Difference, Part, compared};
use crate::outcome::{Asked, Outcome};
use crate::pool::load_table;
use crate::state::next_channel;
use records::Words;

pub(crate) fn open(input: &mut Words<'_>, table: &mut [u32]) -> Option<Difference> {
    let asked = Asked::next(input);
    let lent = input.next_word() as usize;
    load_table(input, table);
    let outcome = Outcome::opened(asked, table, lent);
    let answer = repeated(input.next_word(), input.next_word());
    let channel = next_channel(input);
    compared(Part::Answer, &answer, &outcome.answer).or(compared(
        Part::Channel,
        &channel,
        &outcome.channel,
    ))
}
