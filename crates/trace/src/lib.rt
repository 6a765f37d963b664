// What the program prints: the text of a step and of a run's end, and the run line by line.
#![tactic(auto)]

mod end;
mod line;
mod run;
mod text;

pub use end::{BUDGET, Cause, End, ended};
pub use line::{Line, MOST_TEXT};
pub use run::{MOST_BYTES, Stage, Told, Trace, begin, next_line, words_in};
pub use text::{end_line, refused_line, step_line};
