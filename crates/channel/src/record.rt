// The channel's record, and whether one that is handed in is well-formed.
ghost use Rattle.std.specs.Prelude.{◌≡◌, true, ◌&&◌, ◌^◌};
ghost use Rattle.channel.specs.Record.{with_halves};
ghost use Rattle.channel.specs.Opening.{resting_at};
ghost use Rattle.channel.specs.State.{setup_fits, within, aligned, address_bits, address_widths, addresses, run_widths, puller_widths, engines_fit, well_formed};

use puller::{Acquire, AcquireMode, LongSemaphore, Puller, Semaphore};
use pusher::{Ib, Main, Pusher, Run, Setup, Sli, Subroutine};
use word::Mode;

#[derive(Clone, Copy)]
pub struct Channel {
    pub setup: Setup,
    pub pusher: Pusher,
    pub puller: Puller,
}

// A channel at rest: all else than its set-up, SLI mask and sli_active is 0.
pub(crate) fn resting(setup: Setup, mask: u32, active: bool) -> Channel
    ensures { result ≡ resting_at setup mask active }
{
    let pusher = Pusher {
        get: 0,
        put: 0,
        run: Run {
            count: 0,
            method: 0,
            subchannel: 0,
            increasing: false,
            awaited: false,
        },
        subroutine: Subroutine {
            active: false,
            back: 0,
        },
        ib: Ib { get: 0, put: 0 },
        main: Main {
            nonmain: false,
            mget: 0,
            valid: false,
        },
        sli: Sli { mask, active },
        error: None,
    };
    let puller = Puller {
        engines: [0; 8],
        last: 0,
        reference: 0,
        semaphore: Semaphore {
            dma: 0,
            offset: 0,
            valid: false,
        },
        acquire: Acquire {
            active: false,
            value: 0,
            mode: AcquireMode::Old,
        },
        error: None,
        long: LongSemaphore {
            address: 0,
            sequence: 0,
        },
    };
    Channel {
        setup,
        pusher,
        puller,
    }
}

impl Channel {
    // The channel with other halves.
    pub(crate) fn with_halves(self, pusher: Pusher, puller: Puller) -> Channel
        ensures { result ≡ with_halves self pusher puller }
    {
        Channel {
            pusher,
            puller,
            ..self
        }
    }

    // Whether the record is within its widths, alignments and combinations (R32 to R35); else it is
    // refused as STATE. Numbers of 32 bits fit by their type.
    pub(crate) fn well_formed(self) -> bool
        ensures { result ≡ well_formed self }
    {
        set_up(self.setup)
            && addressed(self.setup, self.pusher)
            && running(self.pusher)
            && bound(self.puller)
    }
}

// Whether opening could have set it up so; NV04-style holds ib_order as 0.
#[tactic(auto, using(crate::proofs::Setups::ib_order, crate::proofs::Setups::no_order, crate::proofs::Setups::setting_refused))]
fn set_up(setup: Setup) -> bool
    ensures { result ≡ setup_fits setup }
{
    if setup.setting.check().is_err() {
        return false;
    }
    if setup.setting.mode == Mode::IB {
        return setup.order <= 12;
    }
    setup.order == 0
}

// Whether the addresses and indices are within their widths, and addresses multiples of 4.
#[tactic(auto, unfolding(crate::specs::State::within, crate::specs::State::aligned))]
fn addressed(setup: Setup, pusher: Pusher) -> bool
    requires { setup_fits setup ≡ true }
    ensures { result ≡ within (address_widths setup pusher) && aligned (addresses pusher) }
{
    let top = top_address(setup);
    let indices = 1u32 << setup.order;
    pusher.get < top
        && pusher.put < top
        && pusher.main.mget < top
        && pusher.ib.get < indices
        && pusher.ib.put < indices
        && pusher.get % 4 == 0
        && pusher.put % 4 == 0
        && pusher.subroutine.back % 4 == 0
}

// The first address that is too wide.
#[tactic(auto, unfolding(crate::specs::State::address_bits, word::specs::First::choose))]
fn top_address(setup: Setup) -> u64
    ensures { result ≡ 2 ^ address_bits setup }
{
    if setup.setting.mode == Mode::IB {
        0x100_0000_0000
    } else {
        0x1_0000_0000
    }
}

// Whether the run and the SLI mask are within their widths.
#[tactic(auto, unfolding(crate::specs::State::within))]
fn running(pusher: Pusher) -> bool
    ensures { result ≡ within (run_widths pusher) }
{
    pusher.run.count < 0x100_0000
        && pusher.sli.mask < 0x1000
        && pusher.run.method < 2048
        && pusher.run.subchannel < 8
}

// Whether the long semaphore's address and every engine are within their widths.
fn bound(puller: Puller) -> bool
    ensures { result ≡ within (puller_widths puller) && engines_fit puller }
{
    puller.last < 32
        && puller.long.address < 0x100_0000_0000
        && puller.engines.iter().all(|&engine| engine < 32)
}
