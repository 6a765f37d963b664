// What a record came to.
use crate::difference::Difference;
use crate::operation::Done;

// How many steps a run had; and where library and model part first, with the operation of the run,
// counted from 1, at which they do.
#[derive(Clone, Copy, Default)]
pub struct Verdict {
    pub steps: u32,
    pub operation: u32,
    pub difference: Option<Difference>,
}

impl Verdict {
    // The verdict on a record that is no run.
    pub(crate) fn alone(difference: Option<Difference>) -> Verdict {
        Verdict {
            steps: 0,
            operation: 0,
            difference,
        }
    }

    // One operation more, and what differs in the memory after it.
    pub(crate) fn add(&mut self, done: Done, memory: Option<Difference>) {
        self.steps = self.steps.saturating_add(u32::from(done.step));
        if self.difference.is_none() {
            self.operation = self.operation.saturating_add(1);
            self.difference = done.difference.or(memory);
        }
    }
}
