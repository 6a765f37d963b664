// What one command word means: the setting it is read at, its reading, its writing, and which
// special methods a level has.
#![tactic(auto)]

mod lent;
mod reading;
mod setting;
mod special;
mod why;
mod writing;

pub use lent::word_at;
pub use reading::{Reading, read, read_at};
pub use setting::{Level, MOST_WORDS, Mode, Refusal, Setting};
pub use special::{present, special_mask};
pub use why::{UnknownWhy, Why};
pub use writing::{Unwritten, write};
