// The search.
use crate::answer::{Answer, Held};
use crate::content::{UNTOUCHED, entries_differ};
use crate::pool::{Pools, lend, load};
use crate::question::Permit;
use crate::repairing::next_wanted;
use records::{Unknown, Words};
use rules::Submission;
use word::{Level, Mode, Refusal, Setting};

// What is asked of the search; the length of the words in bytes, of the room in entries.
#[derive(Clone, Copy)]
struct Sought {
    setting: Setting,
    words: usize,
    permit: Permit,
    room: usize,
}

impl Sought {
    fn next(input: &mut Words<'_>) -> Sought {
        Sought {
            setting: Setting {
                level: Level {
                    number: input.next_word(),
                },
                mode: Mode {
                    number: input.next_word(),
                },
                sli: input.next_word() != 0,
            },
            words: input.next_word() as usize,
            permit: Permit::next(input),
            room: input.next_word() as usize,
        }
    }
}

// The library's answer to a question about the first bytes and entries of each pool, held to what the
// record says of the room. As for the repair, without a map.
pub(crate) fn searched(input: &mut Words<'_>, pools: &mut Pools<'_>) -> Result<Held, Unknown> {
    let sought = Sought::next(input);
    if 1024 < sought.words || 600 < sought.room {
        return Err(Unknown);
    }
    sought.permit.load(input, pools.permit)?;
    load(input, pools.words, sought.words);
    let wanted = next_wanted(input);
    let words = &mut *pools.words;
    let permit = &mut *pools.permit;
    let work = &mut *pools.work;
    let room = lend(work, sought.room)?;
    room.fill(UNTOUCHED);
    let answer = answered(
        sought.setting,
        lend(words, sought.words)?,
        lend(permit, sought.permit.bytes)?,
        room,
    );
    let got = told(answer, entries_differ(input, room));
    Ok(Held { wanted, got })
}

fn answered(
    setting: Setting,
    words: &[u8],
    permit: &[u8],
    room: &mut [u64],
) -> Result<usize, Refusal> {
    let submission = Submission {
        setting,
        words,
        permit,
    };
    search::search(&submission, room)
}

// A difference in the room is told as reason 3, and where it is as the place, counted from 1.
fn told(answer: Result<usize, Refusal>, differs: Option<u32>) -> Answer {
    let (reason, place) = match differs {
        Some(place) => (3, place),
        None => (0, 0),
    };
    match answer {
        Ok(count) => Answer::new(reason, 0, (count & 0xffff_ffff) as u32, place),
        Err(refusal) => Answer::new(reason, u32::from(refusal.number), 0, place),
    }
}
