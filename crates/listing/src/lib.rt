// The listing of lent words: the commands in turn, by the reading of one word. Jumps are not followed.
#![tactic(auto)]

mod command;
mod listing;

pub use command::{End, Listed, list_at};
pub use listing::Listing;
