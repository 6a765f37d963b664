// How a run ends.
ghost use Rattle.trace.specs.Outcomes.{Ends};

use channel::Channel;
use puller::PullerError;
use pusher::PusherError;

// The most steps of a run.
pub const BUDGET: u32 = 65_536;

// What stopped a channel: the error of either half. A cause without an error has no name.
#[derive(Clone, Copy)]
pub enum Cause {
    Pusher { error: Option<PusherError> },
    Puller { error: Option<PullerError> },
}

#[derive(Clone, Copy)]
pub enum End {
    Error { cause: Cause },
    Idle,
    Budget,
}

// Whether a run has ended after so many steps, and how.
#[tactic(auto, unfolding(crate::specs::End::ending_of, channel::specs::Stepping::is_stopped, crate::specs::End::cause_of, word::specs::First::choose))]
pub fn ended(channel: Channel, steps: u32) -> Option<End>
    ensures { Ends channel steps result }
{
    if channel.pusher.stopped() {
        let error = channel.pusher.error;
        Some(End::Error {
            cause: Cause::Pusher { error },
        })
    } else if channel.puller.stopped() {
        let error = channel.puller.error;
        Some(End::Error {
            cause: Cause::Puller { error },
        })
    } else if channel.idle() {
        Some(End::Idle)
    } else if BUDGET <= steps {
        Some(End::Budget)
    } else {
        None
    }
}
