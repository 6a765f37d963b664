// One step of the channel: what it does, it does to the halves, which `step` puts back.
ghost use Rattle.std.specs.Prelude.{◌≡◌};
ghost use Rattle.puller.specs.Loan.{to_puller};
ghost use Rattle.channel.specs.Loan.{to_step};
ghost use Rattle.channel.specs.Stepping.{role, act, is_stopped, waited, finished, with_acted, refusing};
ghost use Rattle.channel.specs.Outcomes.{StepsTo, Affects};

use crate::opening::no_table;
use crate::record::Channel;
use event::{Event, Kind};
use puller::{Puller, retry, take};
use pusher::{Did, Pushed, Pusher, push};
use word::{MOST_WORDS, Refusal};

// What a step says, and the channel after it, which is unchanged where the step is refused.
#[derive(Clone, Copy)]
pub struct Stepped {
    pub answer: Result<Event, Refusal>,
    pub channel: Channel,
}

// What a step says, and the halves after it.
#[derive(Clone, Copy)]
struct Acted {
    event: Event,
    pusher: Pusher,
    puller: Puller,
}

impl Channel {
    // One step, with the words of the pushbuffer, the IB entries, the object table, the semaphore words
    // and the clock lent to it.
    #[tactic(auto, using(crate::proofs::Steps::by_semaphores, crate::proofs::Steps::by_state, crate::proofs::Steps::by_table, crate::proofs::Steps::by_words, crate::proofs::Steps::refused, crate::proofs::Steps::steps))]
    pub fn step(
        self,
        words: &[u32],
        entries: &[u64],
        table: &[u32],
        semaphores: &mut [u32],
        clock: u64,
    ) -> Stepped
        ensures { StepsTo self (to_step words.now entries.now table.now semaphores.old clock) result semaphores.new }
    {
        if !self.well_formed() {
            return self.refused(Refusal::STATE);
        }
        if MOST_WORDS < words.len() {
            return self.refused(Refusal::SIZE);
        }
        if MOST_WORDS < semaphores.len() {
            return self.refused(Refusal::SIZE);
        }
        if no_table(table.len()) {
            return self.refused(Refusal::TABLE);
        }
        self.with_acted(self.act(words, entries, table, semaphores, clock))
    }

    // What a step says, with the channel that has the halves after it.
    fn with_acted(self, acted: Acted) -> Stepped
        ensures { result ≡ with_acted self acted }
    {
        Stepped {
            answer: Ok(acted.event),
            channel: self.with_halves(acted.pusher, acted.puller),
        }
    }

    fn refused(self, refusal: Refusal) -> Stepped
        ensures { result ≡ refusing self refusal }
    {
        Stepped {
            answer: Err(refusal),
            channel: self,
        }
    }

    // Stopped, or an active acquire's retry, or a move of the pusher and what follows from it.
    #[tactic(auto, using(crate::proofs::Steps::when_free, crate::proofs::Steps::when_stopped, crate::proofs::Steps::when_waiting), unfolding(crate::specs::Stepping::act))]
    fn act(
        self,
        words: &[u32],
        entries: &[u64],
        table: &[u32],
        semaphores: &mut [u32],
        clock: u64,
    ) -> Acted
        ensures { Affects (act self.setup self.pusher self.puller (to_step words.now entries.now table.now semaphores.old clock) (role self.pusher self.puller)) result semaphores.new }
    {
        if self.stopped() {
            return Acted {
                event: Event::Plain {
                    kind: Kind::Stopped,
                },
                pusher: self.pusher,
                puller: self.puller,
            };
        }
        if self.puller.acquire.active {
            return self.wait(semaphores);
        }
        let pushed = push(self.setup, self.pusher, words, entries);
        self.finish(pushed, table, semaphores, clock)
    }

    // Whether an error of either half has stopped the channel.
    #[tactic(auto, unfolding(crate::specs::Stepping::is_stopped))]
    pub(crate) fn stopped(self) -> bool
        ensures { result ≡ is_stopped self.pusher self.puller }
    {
        self.pusher.stopped() || self.puller.stopped()
    }

    // The semaphore of an active acquire, read again.
    fn wait(self, semaphores: &[u32]) -> Acted
        ensures { result ≡ waited self.setup.setting.level self.pusher self.puller semaphores.now }
    {
        let taken = retry(self.setup.setting.level, self.puller, semaphores);
        Acted {
            event: taken.event,
            pusher: self.pusher,
            puller: taken.puller,
        }
    }

    // What follows from a move of the pusher: the puller takes what it submits in the same step.
    #[tactic(auto, unfolding(crate::specs::Stepping::finished))]
    fn finish(self, pushed: Pushed, table: &[u32], semaphores: &mut [u32], clock: u64) -> Acted
        ensures { Affects (finished self.setup.setting.level pushed.pusher self.puller pushed.did (to_puller table.now semaphores.old clock)) result semaphores.new }
    {
        let pusher = pushed.pusher;
        match pushed.did {
            Did::Event { event } => Acted {
                event,
                pusher,
                puller: self.puller,
            },
            Did::Submit { method } => {
                let level = self.setup.setting.level;
                let taken = take(level, self.puller, method, table, semaphores, clock);
                Acted {
                    event: taken.event,
                    pusher,
                    puller: taken.puller,
                }
            }
        }
    }
}
