// The pusher's record, and the set-up that it moves by.
ghost use Rattle.std.specs.Prelude.{◌≡◌, Some};
ghost use Rattle.pusher.specs.Record.{with_error};
ghost use Rattle.pusher.specs.Outcomes.{Numbers, Halts};

use word::{Setting, Why};

// What is set once, at opening. `order` is ib_order, `limit` dma_limit.
#[derive(Clone, Copy)]
pub struct Setup {
    pub setting: Setting,
    pub order: u32,
    pub limit: u32,
}

// What stopped the pusher; of a reserved word, why it is that.
#[derive(Clone, Copy)]
pub enum PusherError {
    Call,
    NonCache,
    Return,
    ReservedCmd { why: Why },
    Ib,
    Protection,
}

impl PusherError {
    pub const CALL: u32 = 1;

    pub const NON_CACHE: u32 = 2;

    pub const RETURN: u32 = 3;

    pub const RESERVED_CMD: u32 = 4;

    pub const IB: u32 = 5;

    pub const PROTECTION: u32 = 6;

    // An error's number.
    #[tactic(auto, unfolding(crate::specs::Record::number))]
    pub fn number(self) -> u32
        ensures { Numbers (Some self) result }
    {
        match self {
            PusherError::Call => PusherError::CALL,
            PusherError::NonCache => PusherError::NON_CACHE,
            PusherError::Return => PusherError::RETURN,
            PusherError::ReservedCmd { .. } => PusherError::RESERVED_CMD,
            PusherError::Ib => PusherError::IB,
            PusherError::Protection => PusherError::PROTECTION,
        }
    }
}

// The number of what stopped the pusher, 0 where nothing did.
#[tactic(auto, unfolding(crate::specs::Record::number))]
pub fn error_number(error: Option<PusherError>) -> u32
    ensures { Numbers error result }
{
    error.map_or(0, PusherError::number)
}

// The run of parameters under way: how many are left, the method that the next one goes to (its
// byte number divided by 4), and whether a long form still waits for its count.
#[derive(Clone, Copy)]
pub struct Run {
    pub count: u32,
    pub method: u16,
    pub subchannel: u32,
    pub increasing: bool,
    pub awaited: bool,
}

// `back` is the return address.
#[derive(Clone, Copy)]
pub struct Subroutine {
    pub active: bool,
    pub back: u32,
}

// ib_get and ib_put.
#[derive(Clone, Copy)]
pub struct Ib {
    pub get: u32,
    pub put: u32,
}

// Whether the words come from the main pushbuffer, and how far that has been read: dma_mget and its
// valid flag.
#[derive(Clone, Copy)]
pub struct Main {
    pub nonmain: bool,
    pub mget: u64,
    pub valid: bool,
}

#[derive(Clone, Copy)]
pub struct Sli {
    pub mask: u32,
    pub active: bool,
}

// `get` is the read address.
#[derive(Clone, Copy)]
pub struct Pusher {
    pub get: u64,
    pub put: u64,
    pub run: Run,
    pub subroutine: Subroutine,
    pub ib: Ib,
    pub main: Main,
    pub sli: Sli,
    pub error: Option<PusherError>,
}

impl Pusher {
    // Whether an error has stopped the pusher.
    #[tactic(auto, unfolding(crate::specs::Record::halts, crate::specs::Record::number))]
    pub fn stopped(self) -> bool
        ensures { Halts self result }
    {
        self.error.is_some()
    }

    pub(crate) fn with_error(mut self, error: PusherError) -> Pusher
        ensures { result ≡ with_error self error }
    {
        self.error = Some(error);
        self
    }
}
