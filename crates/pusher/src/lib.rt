// The pusher: its record, and one move of it: one word or one IB entry read.
#![tactic(auto)]

mod entry;
mod moving;
mod record;

pub use moving::{Did, Pushed, push};
pub use record::{Ib, Main, Pusher, PusherError, Run, Setup, Sli, Subroutine, error_number};
