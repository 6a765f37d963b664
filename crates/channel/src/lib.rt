// One channel of the card: set-up, pusher and puller; how it is opened, how put is set, one step, and
// whether a further one would be idle.
#![tactic(auto)]

mod idle;
mod opening;
mod putting;
mod record;
mod stepping;

pub use opening::{Opened, Unopened};
pub use putting::Put;
pub use record::Channel;
pub use stepping::Stepped;
