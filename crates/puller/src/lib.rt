// The puller: the object table, the puller's record, one method taken, and one retry of an acquire.
#![tactic(auto)]

mod object;
mod record;
mod taking;

pub use object::{Object, first_repeat, lookup};
pub use record::{
    Acquire, AcquireMode, LongSemaphore, Puller, PullerError, Semaphore, error_number,
};
pub use taking::{Taken, retry, take};
