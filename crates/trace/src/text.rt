// The lines, word by word (docs/CARD.md, T).
ghost use Rattle.std.specs.Prelude.{◌≡◌, [], map, slice_index_or, Some};
ghost use Rattle.trace.specs.Text.{text};
ghost use Rattle.trace.specs.Line.{added};
ghost use Rattle.pusher.specs.Record as pusher;
ghost use Rattle.trace.specs.Names.{kind_name};
ghost use Rattle.trace.specs.Lines.{fields, event_text, why_part, cause_part, end_part};
ghost use Rattle.trace.specs.Outcomes.{StepLine, EndLine, RefusedLine};

use crate::end::{Cause, End};
use crate::line::Line;
use event::{Event, Kind, Method};
use pusher::PusherError;
use word::Refusal;

// The names, each at the number of what it names, from 1; 0 has the empty name.
const KINDS: &[&[u8]] = &[
    b"", b"command", b"count", b"bind", b"ref", b"event", b"dma", b"offset", b"acquire",
    b"release", b"wait", b"forward", b"error", b"entry", b"discard", b"idle", b"stopped",
];

const PUSHER_ERRORS: &[&[u8]] = &[
    b"",
    b"CALL",
    b"NON_CACHE",
    b"RETURN",
    b"RESERVED_CMD",
    b"IB",
    b"PROTECTION",
];

const PULLER_ERRORS: &[&[u8]] = &[
    b"",
    b"NO_HASH",
    b"EMPTY_SUBCHANNEL",
    b"SEMAPHORE_1",
    b"SEMAPHORE_2",
    b"SEMAPHORE_3",
    b"SEMAPHORE_4",
];

const WHYS: &[&[u8]] = &[b"", b"FORM", b"LEVEL", b"MODE", b"SLI"];

const REFUSALS: &[&[u8]] = &[
    b"",
    b"LEVEL",
    b"MODE",
    b"ORDER",
    b"SLI",
    b"TABLE",
    b"DUPLICATE",
    b"PUT",
    b"SIZE",
    b"LENGTH",
    b"FIELD",
    b"ROOM",
    b"FORM",
    b"STATE",
];

// The line of a step, counted from 1; `get` is before the step.
#[tactic(auto, using(crate::proofs::Adding::add_both, crate::proofs::Adding::add_line), unfolding(crate::specs::Text::text, crate::specs::Lines::field, crate::specs::Lines::step_text))]
pub fn step_line(step: u32, get: u64, event: Event) -> Line
    ensures { StepLine step get event result }
{
    Line::empty()
        .tell(b"step=", step as u64)
        .tell(b" get=", get)
        .say(b" kind=")
        .event(event)
        .say(b"\n")
}

// The line of a run's end, after so many steps.
#[tactic(auto, using(crate::proofs::Adding::add_both, crate::proofs::Adding::add_line), unfolding(crate::specs::Text::text, crate::specs::Lines::field, crate::specs::Lines::end_text))]
pub fn end_line(end: End, steps: u32, get: u64, reference: u32) -> Line
    ensures { EndLine end steps get reference result }
{
    Line::empty()
        .say(b"end=")
        .end(end)
        .tell(b" steps=", steps as u64)
        .tell(b" get=", get)
        .tell(b" ref=", reference as u64)
        .say(b"\n")
}

// The line of a refusal.
pub fn refused_line(refusal: Refusal) -> Line
    ensures { RefusedLine refusal result }
{
    Line::empty()
        .say(b"refused=")
        .name(REFUSALS, refusal.number as u32)
        .say(b"\n")
}

// The parts of a line.
impl Line {
    #[tactic(auto, using(crate::proofs::Adding::add_both), unfolding(crate::specs::Lines::event_text))]
    fn event(self, event: Event) -> Line
        ensures { result ≡ added self (event_text event) }
    {
        match event {
            Event::Plain { kind } => self.kind(kind),
            Event::Of { kind, method } => self.kind(kind).method(method),
        }
    }

    #[tactic(auto, using(crate::proofs::Adding::add_both), unfolding(crate::specs::Text::text, crate::specs::Lines::field, crate::specs::Lines::fields))]
    fn method(self, method: Method) -> Line
        ensures { result ≡ added self (fields method) }
    {
        self.tell(b" subc=", method.subchannel as u64)
            .tell(b" mthd=", method.method as u64)
            .tell(b" param=", method.parameter as u64)
    }

    fn kind(self, kind: Kind) -> Line
        ensures { result ≡ added self (text (kind_name kind)) }
    {
        self.name(KINDS, kind.number())
    }

    #[tactic(auto, using(crate::proofs::Adding::add_both), unfolding(crate::specs::Text::text, crate::specs::Lines::end_part))]
    fn end(self, end: End) -> Line
        ensures { result ≡ added self (end_part end) }
    {
        match end {
            End::Error { cause } => self.say(b"error cause=").cause(cause),
            End::Idle => self.say(b"idle"),
            End::Budget => self.say(b"budget"),
        }
    }

    // A cause, and right behind a reserved word's why it is reserved.
    fn cause(self, cause: Cause) -> Line
        ensures { result ≡ added self (cause_part cause) }
    {
        match cause {
            Cause::Pusher { error } => self
                .name(PUSHER_ERRORS, pusher::error_number(error))
                .why(error),
            Cause::Puller { error } => self.name(PULLER_ERRORS, puller::error_number(error)),
        }
    }

    #[tactic(auto, unfolding(pusher::specs::Record::why, crate::specs::Lines::why_part, crate::specs::Line::added))]
    fn why(self, error: Option<PusherError>) -> Line
        ensures { result ≡ added self (why_part (pusher.why error)) }
    {
        match error {
            Some(error) => self.why_of(error),
            None => self,
        }
    }

    #[tactic(auto, using(crate::proofs::Adding::add_then, crate::proofs::Names::said_name), unfolding(crate::specs::Line::added, crate::specs::Lines::why_part, crate::specs::Names::why_name, crate::specs::Names::whys, crate::specs::Text::text, pusher::specs::Record::why))]
    fn why_of(self, error: PusherError) -> Line
        ensures { result ≡ added self (why_part (pusher.why (Some error))) }
    {
        match error {
            PusherError::ReservedCmd { why } => {
                self.say(b" why=").name(WHYS, why.number() as u32)
            }
            _ => self,
        }
    }

    // The name that a number has in a list. A number that the list doesn't have has none.
    fn name(self, names: &[&[u8]], number: u32) -> Line
        ensures { result ≡ added self (slice_index_or (map (λ s. s.now) names.now) number []) }
    {
        self.say(names.get(number as usize).copied().unwrap_or(b""))
    }
}
