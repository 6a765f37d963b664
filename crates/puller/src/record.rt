// The puller's record.
ghost use Rattle.std.specs.Prelude.{◌≡◌, true, Some};
ghost use Rattle.puller.specs.Record.{with_error, with_acquire};
ghost use Rattle.puller.specs.Outcomes.{Numbers, Halts};

// What stopped the puller, by its number: CACHE_ERROR NO_HASH or EMPTY_SUBCHANNEL, or SEMAPHORE 1 to 4.
#[derive(Clone, Copy)]
pub enum PullerError {
    NoHash = 1,
    EmptySubchannel = 2,
    Semaphore1 = 3,
    Semaphore2 = 4,
    Semaphore3 = 5,
    Semaphore4 = 6,
}

impl PullerError {
    pub const NO_HASH: u32 = 1;

    pub const EMPTY_SUBCHANNEL: u32 = 2;

    pub const SEMAPHORE_1: u32 = 3;

    pub const SEMAPHORE_2: u32 = 4;

    pub const SEMAPHORE_3: u32 = 5;

    pub const SEMAPHORE_4: u32 = 6;

    // An error's number.
    #[tactic(auto, unfolding(crate::specs::Record::number))]
    pub fn number(self) -> u32
        ensures { Numbers (Some self) result }
    {
        self as u32
    }
}

// The number of an error, 0 for none.
#[tactic(auto, unfolding(crate::specs::Record::number))]
pub fn error_number(error: Option<PullerError>) -> u32
    ensures { Numbers error result }
{
    error.map_or(0, PullerError::number)
}

// Where semaphores are: the object's address, 0 where none is bound, and the offset in bytes.
#[derive(Clone, Copy)]
pub struct Semaphore {
    pub dma: u32,
    pub offset: u32,
    pub valid: bool,
}

// A long semaphore: its address in bytes, and the sequence that it is released with or held against.
#[derive(Clone, Copy)]
pub struct LongSemaphore {
    pub address: u64,
    pub sequence: u32,
}

// Where an acquire's word is, and when it lets the acquire pass: at the offset, where it is equal; or
// at the long semaphore's address, where it is equal, or not behind.
#[derive(Clone, Copy)]
pub enum AcquireMode {
    Old,
    Equal,
    GreaterOrEqual,
}

// The acquire that waits, if one is active.
#[derive(Clone, Copy)]
pub struct Acquire {
    pub active: bool,
    pub value: u32,
    pub mode: AcquireMode,
}

#[derive(Clone, Copy)]
pub struct Puller {
    pub engines: [u32; 8],
    pub last: u32,
    pub reference: u32,
    pub semaphore: Semaphore,
    pub acquire: Acquire,
    pub error: Option<PullerError>,
    pub long: LongSemaphore,
}

impl Puller {
    // Whether an error has stopped the puller.
    #[tactic(auto, unfolding(crate::specs::Record::halts, crate::specs::Record::number))]
    pub fn stopped(self) -> bool
        ensures { Halts self result }
    {
        self.error.is_some()
    }

    pub(crate) fn with_error(self, error: PullerError) -> Puller
        ensures { result ≡ with_error self error }
    {
        Puller {
            error: Some(error),
            ..self
        }
    }

    // With an acquire that is active.
    pub(crate) fn with_acquire(self, value: u32, mode: AcquireMode) -> Puller
        ensures { result ≡ with_acquire self true value mode }
    {
        Puller {
            acquire: Acquire {
                active: true,
                value,
                mode,
            },
            ..self
        }
    }
}
