// How put is set.
ghost use Rattle.std.specs.Prelude.{◌≡◌, true};
ghost use Rattle.channel.specs.State.{well_formed};
ghost use Rattle.channel.specs.Putting.{put_refused, with_put};
ghost use Rattle.channel.specs.Outcomes.{Puts};

use crate::record::Channel;
use word::{Mode, Refusal};

// The channel with its new put, or unchanged where that is refused.
#[derive(Clone, Copy)]
pub struct Put {
    pub answer: Result<(), Refusal>,
    pub channel: Channel,
}

impl Channel {
    // Sets put, in IB mode ib_put. A stopped channel stays stopped.
    #[tactic(auto, using(crate::proofs::Puts::by_put, crate::proofs::Puts::by_state, crate::proofs::Puts::puts))]
    pub fn set_put(self, put: u32) -> Put
        ensures { Puts self put result }
    {
        if !self.well_formed() {
            return Put {
                answer: Err(Refusal::STATE),
                channel: self,
            };
        }
        if self.no_put(put) {
            return Put {
                answer: Err(Refusal::PUT),
                channel: self,
            };
        }
        Put {
            answer: Ok(()),
            channel: self.with_put(put),
        }
    }

    // Whether PUT refuses (R7): an address in NV04-style, an index into the ring in IB mode.
    #[tactic(auto, using(word::proofs::First::choose_false, word::proofs::First::choose_true, crate::proofs::Setups::order_most, crate::proofs::Setups::power, crate::proofs::Widths::set_up_fits), unfolding(crate::specs::Putting::put_refused))]
    fn no_put(self, put: u32) -> bool
        requires { well_formed self ≡ true }
        ensures { result ≡ put_refused self put }
    {
        if self.setup.setting.mode == Mode::IB {
            return 1u32 << self.setup.order <= put;
        }
        put % 4 != 0
    }

    #[tactic(auto, using(word::proofs::First::choose_false, word::proofs::First::choose_true), unfolding(crate::specs::Putting::with_put))]
    fn with_put(self, put: u32) -> Channel
        ensures { result ≡ with_put self put }
    {
        let mut pusher = self.pusher;
        if self.setup.setting.mode == Mode::IB {
            pusher.ib.put = put;
        } else {
            pusher.put = put as u64;
        }
        self.with_halves(pusher, self.puller)
    }
}
