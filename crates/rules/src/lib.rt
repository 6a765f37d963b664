// What the gatekeeper goes by: its answers, and in specs/ the map, the list of permitted methods, the
// reasons, the path rule and the promises. The code is in `gate`.
#![tactic(auto)]

mod judging;
mod pair;
mod parameters;
mod reason;
mod submission;

pub use judging::{FirstRefused, Judgement, Unfit, Verdict};
pub use pair::{Nexts, Pair};
pub use parameters::Methods;
pub use reason::Reason;
pub use submission::Submission;
