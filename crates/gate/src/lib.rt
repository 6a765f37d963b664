// The gatekeeper: judges words, with a map of their command starts that nobody trusts, against a list of
// permitted methods.
#![tactic(auto)]

mod judging;
mod map;
mod next;
mod parameters;
mod permit;
mod reason;

pub use judging::{first_refused, judge, no_such_lengths, submit};
pub use map::{Map, Marks, NoMap, marked_among};
pub use next::nexts;
pub use reason::{arrival, command_reason, own_reason};
pub use rules::{FirstRefused, Judgement, Nexts, Pair, Reason, Submission, Unfit, Verdict};
