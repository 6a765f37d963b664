// One method taken by the puller, and one retry of an active acquire.
ghost use Rattle.std.specs.Prelude.{◌≡◌, ◌+◌, ◌<◌, ◌≤◌, length};
ghost use Rattle.std.proofs.lemmas.List.Edits.{sets};
ghost use Rattle.word.specs.Parts.{bits};
ghost use Rattle.puller.specs.Loan.{to_puller};
ghost use Rattle.puller.specs.Taking.{done_with, failed_by, bind_of, ref_of, dma_of, unfit_for, offset_of, unready_at, long_place, place_in, past_end_error, passes_in, trial_of, acquire_in, acquire_of, forward_object_of, forward_of, release_of, address_of, high_of, low_of, long_words, long_release_of, trigger_of};
ghost use Rattle.puller.specs.Record.{with_engine, engine_of};
ghost use Rattle.puller.specs.Outcomes.{Takes, TakesLong, Writes, Retries};

use crate::object::{Object, lookup};
use crate::record::{AcquireMode, Puller, PullerError};
use event::{Event, Kind, Method};
use word::Level;

// The puller after a method or a retry, and what it says.
#[derive(Clone, Copy)]
pub struct Taken {
    pub puller: Puller,
    pub event: Event,
}

// What an acquire comes to: there is no such word, it goes on, or it waits.
#[derive(Clone, Copy)]
enum Trial {
    Outside,
    Passes,
    Waits,
}

// Takes a method at a level. Those below 0x100 that no level has are never submitted; handed in,
// they have no effect.
pub fn take(
    level: Level,
    puller: Puller,
    method: Method,
    table: &[u32],
    semaphores: &mut [u32],
    clock: u64,
) -> Taken
    ensures { Takes level puller method (to_puller table.now semaphores.old clock) result semaphores.new }
{
    match method.method {
        0x00 => puller.bind(method, table),
        0x10..=0x24 => puller.long(level, method, semaphores, clock),
        0x50 => puller.refer(method),
        0x60 => puller.dma(level, method, table),
        0x64 => puller.offset(level, method),
        0x68 => puller.acquire(level, method, semaphores),
        0x6c => puller.release(level, method, semaphores),
        0x80 => puller.done(Kind::Event, method),
        0x00..=0xff => puller.done(Kind::Event, method),
        0x180..=0x1fc => puller.forward_object(method, table),
        _ => puller.forward(method, method.parameter),
    }
}

// Reads the semaphore of an active acquire again (P16, P31): whether there is such a word, and its value.
#[tactic(auto, unfolding(crate::specs::Taking::tried, crate::specs::Taking::retry_of))]
pub fn retry(level: Level, puller: Puller, semaphores: &[u32]) -> Taken
    ensures { Retries level puller semaphores.now result }
{
    let acquire = puller.acquire;
    let mode = acquire.mode;
    match puller.trial(mode, acquire.value, semaphores) {
        Trial::Outside => puller.failed(past_end(level, mode)),
        Trial::Passes => {
            let mut next = puller;
            next.acquire.active = false;
            Taken {
                puller: next,
                event: Event::Plain {
                    kind: Kind::Acquire,
                },
            }
        }
        Trial::Waits => Taken {
            puller,
            event: Event::Plain { kind: Kind::Wait },
        },
    }
}

impl Puller {
    // A method taken, with its parameter as it came.
    fn done(self, kind: Kind, method: Method) -> Taken
        ensures { result ≡ done_with self kind method method.parameter }
    {
        Taken {
            puller: self,
            event: Event::Of { kind, method },
        }
    }

    // A method taken, with the parameter that is handed on.
    fn handed_on(self, kind: Kind, method: Method, parameter: u32) -> Taken
        ensures { result ≡ done_with self kind method parameter }
    {
        self.done(
            kind,
            Method {
                parameter,
                ..method
            },
        )
    }

    fn failed(self, error: PullerError) -> Taken
        ensures { result ≡ failed_by self error }
    {
        Taken {
            puller: self.with_error(error),
            event: Event::Plain { kind: Kind::Error },
        }
    }

    #[tactic(auto, unfolding(crate::specs::Taking::looking_up, crate::specs::Taking::bind_to, crate::specs::Taking::bind_of, word::specs::First::choose))]
    fn bind(self, method: Method, table: &[u32]) -> Taken
        ensures { result ≡ bind_of self method table.now }
    {
        let Some(object) = lookup(table, method.parameter) else {
            return self.failed(PullerError::NoHash);
        };
        let bound = self.bound(method.subchannel, object.engine);
        if object.engine == 0 {
            return bound.failed(PullerError::EmptySubchannel);
        }
        let next = Puller {
            last: object.engine,
            ..bound
        };
        next.handed_on(Kind::Bind, method, object.address)
    }

    // The binding stored. A subchannel above 7 has none.
    fn bound(self, subchannel: u32, engine: u32) -> Puller
        ensures { result ≡ with_engine self subchannel engine }
    {
        let mut next = self;
        let at = subchannel as usize;
        if at < 8 {
            next.engines[at] = engine;
        }
        next
    }

    fn refer(self, method: Method) -> Taken
        ensures { result ≡ ref_of self method }
    {
        let next = Puller {
            reference: method.parameter,
            ..self
        };
        next.done(Kind::Ref, method)
    }

    #[tactic(auto, unfolding(crate::specs::Taking::looking_up, crate::specs::Taking::dma_to, crate::specs::Taking::dma_of, word::specs::First::choose))]
    fn dma(self, level: Level, method: Method, table: &[u32]) -> Taken
        ensures { result ≡ dma_of level.number self method table.now }
    {
        let Some(object) = lookup(table, method.parameter) else {
            return self.failed(PullerError::NoHash);
        };
        if unfit(level, object) {
            return self.failed(PullerError::Semaphore1);
        }
        let mut next = self;
        next.semaphore.dma = object.address;
        next.handed_on(Kind::Dma, method, object.address)
    }

    #[tactic(auto, using(word::proofs::Tests::below, word::proofs::Decode::field_0, word::proofs::Tests::not_below, word::proofs::Decode::upper_half), unfolding(crate::specs::Taking::offset_of, word::specs::First::choose))]
    fn offset(self, level: Level, method: Method) -> Taken
        ensures { result ≡ offset_of level.number self method }
    {
        let offset = method.parameter;
        let mut next = self;
        if level < Level::NV50 {
            if offset & 0xffff_f003 != 0 {
                return self.failed(PullerError::Semaphore1);
            }
            next.semaphore.offset = offset;
            return next.done(Kind::Offset, method);
        }
        if offset & 3 != 0 {
            return self.failed(PullerError::Semaphore1);
        }
        if offset >> 16 != 0 {
            return self.failed(PullerError::Semaphore3);
        }
        next.semaphore.offset = offset;
        next.semaphore.valid = true;
        next.done(Kind::Offset, method)
    }

    // Whether there is no semaphore to acquire or release: below level 4 no object is bound, from
    // there no offset has been stored.
    #[tactic(auto, unfolding(crate::specs::Taking::unready_at, word::specs::First::choose))]
    fn unready(self, level: Level) -> bool
        ensures { result ≡ unready_at level.number self }
    {
        if level < Level::NV50 {
            self.semaphore.dma == 0
        } else {
            !self.semaphore.valid
        }
    }

    // Where the semaphore is, by the mode: its word's place in the memory, whatever the object.
    #[tactic(auto, unfolding(crate::specs::Taking::place_in))]
    fn place_in(self, mode: AcquireMode) -> usize
        ensures { result ≡ place_in self mode }
    {
        match mode {
            AcquireMode::Old => (self.semaphore.offset / 4) as usize,
            AcquireMode::Equal | AcquireMode::GreaterOrEqual => self.long_place(),
        }
    }

    // Where the long semaphore's first word is.
    fn long_place(self) -> usize
        ensures { result ≡ long_place self }
    {
        (self.long.address / 4) as usize
    }

    // What an acquire of a value comes to.
    #[tactic(auto, unfolding(crate::specs::Taking::trial_of, word::specs::First::choose))]
    fn trial(self, mode: AcquireMode, value: u32, semaphores: &[u32]) -> Trial
        ensures { result ≡ trial_of mode (place_in self mode) value semaphores.now }
    {
        let Some(&word) = semaphores.get(self.place_in(mode)) else {
            return Trial::Outside;
        };
        if passes_in(mode, word, value) {
            return Trial::Passes;
        }
        Trial::Waits
    }

    // An acquire of a value: it fails, goes on, or waits.
    #[tactic(auto, unfolding(crate::specs::Taking::tried, crate::specs::Taking::acquire_in))]
    fn acquire_in(
        self,
        level: Level,
        method: Method,
        mode: AcquireMode,
        value: u32,
        semaphores: &[u32],
    ) -> Taken
        ensures { result ≡ acquire_in level.number self method mode value semaphores.now }
    {
        match self.trial(mode, value, semaphores) {
            Trial::Outside => self.failed(past_end(level, mode)),
            Trial::Passes => self.done(Kind::Acquire, method),
            Trial::Waits => self.with_acquire(value, mode).done(Kind::Wait, method),
        }
    }

    #[tactic(auto, unfolding(crate::specs::Taking::acquire_of, word::specs::First::choose))]
    fn acquire(self, level: Level, method: Method, semaphores: &[u32]) -> Taken
        ensures { result ≡ acquire_of level.number self method semaphores.now }
    {
        if self.unready(level) {
            return self.failed(PullerError::Semaphore2);
        }
        self.acquire_in(
            level,
            method,
            AcquireMode::Old,
            method.parameter,
            semaphores,
        )
    }

    #[tactic(auto, unfolding(crate::specs::Taking::place_in, crate::specs::Taking::release_of, word::specs::First::choose))]
    fn release(self, level: Level, method: Method, semaphores: &mut [u32]) -> Taken
        ensures { Writes (release_of level.number self method semaphores.old) result semaphores.new }
    {
        if self.unready(level) {
            return self.failed(PullerError::Semaphore2);
        }
        let place = self.place_in(AcquireMode::Old);
        if semaphores.len() <= place {
            return self.failed(past_end(level, AcquireMode::Old));
        }
        semaphores[place] = method.parameter;
        self.done(Kind::Release, method)
    }

    // The methods of long semaphores, from level 5 on; below it, and between them, there is only the event.
    #[tactic(auto, using(word::proofs::Tests::below, crate::proofs::Deeds::logs_at, word::proofs::Tests::not_below, crate::proofs::Deeds::numbered, crate::proofs::Deeds::taken_by), unfolding(crate::specs::Taking::act))]
    fn long(self, level: Level, method: Method, semaphores: &mut [u32], clock: u64) -> Taken
        requires { (0x10 ≤ method.method) × (method.method ≤ 0x24) }
        ensures { TakesLong level self method semaphores.old clock result semaphores.new }
    {
        if level < Level::NV84 {
            return self.done(Kind::Event, method);
        }
        match method.method {
            0x10 => self.address_high(method),
            0x14 => self.address_low(method),
            0x18 => {
                let mut next = self;
                next.long.sequence = method.parameter;
                next.done(Kind::Event, method)
            }
            0x1c => self.trigger(level, method, semaphores, clock),
            _ => self.done(Kind::Event, method),
        }
    }

    // Bits 39-32 of the long semaphore's address.
    #[tactic(auto, unfolding(crate::specs::Taking::high_of, word::specs::First::choose))]
    fn address_high(self, method: Method) -> Taken
        ensures { result ≡ high_of self method }
    {
        let high = method.parameter;
        if 255 < high {
            return self.failed(PullerError::Semaphore3);
        }
        let mut next = self;
        next.long.address = with_high(self.long.address, high);
        next.done(Kind::Event, method)
    }

    // Its bits 31-0.
    #[tactic(auto, unfolding(crate::specs::Taking::low_of, word::specs::First::choose))]
    fn address_low(self, method: Method) -> Taken
        ensures { result ≡ low_of self method }
    {
        let low = method.parameter;
        if low % 4 != 0 {
            return self.failed(PullerError::Semaphore1);
        }
        let mut next = self;
        next.long.address = with_low(self.long.address, low);
        next.done(Kind::Event, method)
    }

    // What is done with a long semaphore goes by the whole parameter.
    #[tactic(auto, unfolding(crate::specs::Taking::trigger_of, word::specs::First::choose))]
    fn trigger(self, level: Level, method: Method, semaphores: &mut [u32], clock: u64) -> Taken
        ensures { Writes (trigger_of level.number self method clock semaphores.old) result semaphores.new }
    {
        let sequence = self.long.sequence;
        match method.parameter {
            1 => self.acquire_in(level, method, AcquireMode::Equal, sequence, semaphores),
            2 => self.long_release(method, semaphores, clock),
            4 => self.acquire_in(
                level,
                method,
                AcquireMode::GreaterOrEqual,
                sequence,
                semaphores,
            ),
            _ => self.failed(PullerError::Semaphore2),
        }
    }

    // Where there is no room for all four words, none is written.
    #[tactic(auto, unfolding(crate::specs::Taking::long_release_of, word::specs::First::choose))]
    fn long_release(self, method: Method, semaphores: &mut [u32], clock: u64) -> Taken
        ensures { Writes (long_release_of self method clock semaphores.old) result semaphores.new }
    {
        let place = self.long_place();
        if semaphores.len() <= place + 3 {
            return self.failed(PullerError::Semaphore4);
        }
        write_long(semaphores, place, self.long.sequence, clock);
        self.done(Kind::Release, method)
    }

    #[tactic(auto, unfolding(crate::specs::Taking::looking_up, crate::specs::Taking::forward_object_of))]
    fn forward_object(self, method: Method, table: &[u32]) -> Taken
        ensures { result ≡ forward_object_of self method table.now }
    {
        let Some(object) = lookup(table, method.parameter) else {
            return self.failed(PullerError::NoHash);
        };
        self.forward(method, object.address)
    }

    // Hands the method on to the engine of its subchannel, with a parameter.
    #[tactic(auto, unfolding(crate::specs::Taking::forward_of, word::specs::First::choose))]
    fn forward(self, method: Method, parameter: u32) -> Taken
        ensures { result ≡ forward_of self method parameter }
    {
        let engine = self.engine(method.subchannel);
        if engine == 0 {
            return self.failed(PullerError::EmptySubchannel);
        }
        let next = Puller {
            last: engine,
            ..self
        };
        next.handed_on(Kind::Forward, method, parameter)
    }

    // The engine bound to a subchannel; none, 0, above 7.
    fn engine(self, subchannel: u32) -> u32
        ensures { result ≡ engine_of self subchannel }
    {
        self.engines.get(subchannel as usize).copied().unwrap_or(0)
    }
}

// Whether an object can't be a semaphore's: below level 4 it is of class 2, write-only, and has
// its page table.
#[tactic(auto, unfolding(crate::specs::Taking::unfit_for))]
fn unfit(level: Level, object: Object) -> bool
    ensures { result ≡ unfit_for level.number object }
{
    level < Level::NV50 && (object.class != 2 || !object.writeonly || !object.paged)
}

// The error of a semaphore past the end of the memory.
#[tactic(auto, unfolding(crate::specs::Taking::past_end_error, word::specs::First::choose))]
fn past_end(level: Level, mode: AcquireMode) -> PullerError
    ensures { result ≡ past_end_error level.number mode }
{
    match mode {
        AcquireMode::Old => {
            if level < Level::NV50 {
                return PullerError::Semaphore2;
            }
            PullerError::Semaphore4
        }
        AcquireMode::Equal | AcquireMode::GreaterOrEqual => PullerError::Semaphore4,
    }
}

// Whether a word lets an acquire of a value pass. 'Greater or equal' is said of the difference, read
// as signed: it wraps, and is not negative below 2^31.
#[tactic(auto, unfolding(crate::specs::Taking::passes_in))]
fn passes_in(mode: AcquireMode, word: u32, value: u32) -> bool
    ensures { result ≡ passes_in mode word value }
{
    match mode {
        AcquireMode::Old | AcquireMode::Equal => word == value,
        AcquireMode::GreaterOrEqual => word.wrapping_sub(value) < 0x8000_0000,
    }
}

// An address with other bits 39-32, and with other bits 31-0.
fn with_high(address: u64, high: u32) -> u64
    requires { high ≤ 255 }
    ensures { result ≡ address_of high (bits 31 0 address) }
{
    (high as u64) * 0x1_0000_0000 + address % 0x1_0000_0000
}

fn with_low(address: u64, low: u32) -> u64
    ensures { result ≡ address_of (bits 39 32 address) (bits 31 0 low) }
{
    address / 0x1_0000_0000 % 0x100 * 0x1_0000_0000 + low as u64
}

// Writes the sequence, 0 and the clock, its lower half first.
fn write_long(semaphores: &mut [u32], place: usize, sequence: u32, clock: u64)
    requires { place + 3 < length semaphores.old }
    ensures { semaphores.new ≡ sets semaphores.old place (long_words sequence clock) }
{
    semaphores[place] = sequence;
    semaphores[place + 1] = 0;
    semaphores[place + 2] = (clock % 0x1_0000_0000) as u32;
    semaphores[place + 3] = (clock / 0x1_0000_0000) as u32;
}
