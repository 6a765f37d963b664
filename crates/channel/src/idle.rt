// Whether a further step would say idle.
ghost use Rattle.channel.specs.Outcomes.{Idles};

use crate::record::Channel;
use word::Mode;

impl Channel {
    // Whether a step would find nothing to do: told by the fields, without one.
    #[tactic(auto, unfolding(crate::specs::Idle::idles, word::specs::First::choose))]
    pub fn idle(self) -> bool
        ensures { Idles self result }
    {
        !self.stopped()
            && !self.puller.acquire.active
            && self.pusher.get == self.pusher.put
            && (self.setup.setting.mode != Mode::IB || self.pusher.ib.get == self.pusher.ib.put)
    }
}
