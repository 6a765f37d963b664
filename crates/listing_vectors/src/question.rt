// The questions on standard input: their words go into the pool.
ghost use Rattle.std.specs.Prelude.{◌≡◌};
ghost use Rattle.listing_vectors.specs.declared.question.Unread.TheVariants as unread;

use records::{Unknown, Words, read_words};
use std::io::{self, Read};
use word::{Level, Mode, Setting};

// The most words that a large record lends: more than the library takes, so that SIZE is tried.
pub const LARGE_WORDS: usize = 1_048_580;

// The most words that a list record gives.
const LIST_WORDS: usize = 256;

// Those, and behind them how many answers come.
const LIST_BYTES: usize = 4 * (LIST_WORDS + 1);

// Why a record is not had: reading failed, or the format has none such.
#[derive(Drop)]
pub enum Unread {
    Failed { error: io::Error },
    Unknown,
}

impl From<io::Error> for Unread {
    ghost from_gives = { λ error given. given ≡ unread.Failed error };

    fn from(error: io::Error) -> Unread {
        Unread::Failed { error }
    }
}

impl From<Unknown> for Unread {
    ghost from_gives = { λ _ given. given ≡ unread.Unknown };

    fn from(_unknown: Unknown) -> Unread {
        Unread::Unknown
    }
}

#[derive(Clone, Copy)]
pub enum Kind {
    List,
    Large,
}

impl TryFrom<u32> for Kind {
    type Error = Unknown;

    fn try_from(number: u32) -> Result<Kind, Unknown> {
        match number {
            1 => Ok(Kind::List),
            2 => Ok(Kind::Large),
            _ => Err(Unknown),
        }
    }
}

// The place is the first that is asked about.
#[derive(Clone, Copy)]
pub struct Question {
    pub setting: Setting,
    pub place: usize,
    pub words: usize,
}

impl Question {
    pub(crate) fn next(input: &mut Words<'_>) -> Question {
        Question {
            setting: next_setting(input),
            place: input.next_word() as usize,
            words: input.next_word() as usize,
        }
    }
}

fn next_setting(input: &mut Words<'_>) -> Setting {
    Setting {
        level: Level {
            number: input.next_word(),
        },
        mode: Mode {
            number: input.next_word(),
        },
        sli: input.next_word() != 0,
    }
}

// Reads the words that a record lends, and how many answers come next.
pub(crate) fn load(input: &mut impl Read, kind: Kind, lent: &mut [u32]) -> Result<u32, Unread> {
    match kind {
        Kind::List => load_list(input, lent),
        Kind::Large => {
            let mut bytes = [0u8; 4];
            lent.fill(read_words(input, &mut bytes)?.next_word());
            Ok(1)
        }
    }
}

// At most 300 answers are given: those to an end, and that three times.
fn load_list(input: &mut impl Read, lent: &mut [u32]) -> Result<u32, Unread> {
    if LIST_WORDS < lent.len() {
        return Err(Unread::Unknown);
    }
    let mut bytes = [0u8; LIST_BYTES];
    let mut words = read_words(input, &mut bytes[..4 * (lent.len() + 1)])?;
    for word in lent {
        *word = words.next_word();
    }
    let answers = words.next_word();
    if (3..=300).contains(&answers) {
        Ok(answers)
    } else {
        Err(Unread::Unknown)
    }
}
