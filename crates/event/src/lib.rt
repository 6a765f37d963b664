// What a step of the channel, or either half of it, can say: the kinds, and the method that
// an event is about.
#![tactic(auto)]

ghost use Rattle.event.specs.Outcomes.{Numbers};

// The kinds, in the order of their numbers.
#[derive(Clone, Copy, Debug, PartialEq, Eq)]
pub enum Kind {
    Command = 1,
    Count = 2,
    Bind = 3,
    Ref = 4,
    Event = 5,
    Dma = 6,
    Offset = 7,
    Acquire = 8,
    Release = 9,
    Wait = 10,
    Forward = 11,
    Error = 12,
    Entry = 13,
    Discard = 14,
    Idle = 15,
    Stopped = 16,
}

impl Kind {
    // A kind's number: its place in their list (S30).
    #[tactic(auto, unfolding(crate::specs::Event::number))]
    pub fn number(self) -> u32
        ensures { Numbers self result }
    {
        self as u32
    }
}

// A method as the pusher submits it and the puller takes it; `method` is its byte number.
#[derive(Clone, Copy, Debug, PartialEq, Eq)]
pub struct Method {
    pub subchannel: u32,
    pub method: u32,
    pub parameter: u32,
}

// A kind, and for methods taken or discarded the method.
#[derive(Clone, Copy, Debug, PartialEq, Eq)]
pub enum Event {
    Plain { kind: Kind },
    Of { kind: Kind, method: Method },
}
