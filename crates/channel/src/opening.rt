// How a channel is opened.
ghost use Rattle.std.specs.Prelude.{◌≡◌};
ghost use Rattle.channel.specs.State.{order_refused};
ghost use Rattle.channel.specs.declared.opening.Unopened.TheVariants.{Refused};
ghost use Rattle.channel.specs.Opening.{table_refused, opening_of, held_order, blank_channel};
ghost use Rattle.channel.specs.Outcomes.{Opens};

use crate::record::{Channel, resting};
use puller::first_repeat;
use pusher::Setup;
use word::{Level, Mode, Refusal, Setting};

// Why a channel is not opened; of a handle that stands twice, the lowest entry that has it again.
#[derive(Clone, Copy, PartialEq, Eq)]
pub enum Unopened {
    Refused { refusal: Refusal },
    Duplicate { entry: usize },
}

impl From<Refusal> for Unopened {
    ghost from_gives = { λ refusal error. error ≡ Refused refusal };

    fn from(refusal: Refusal) -> Unopened {
        Unopened::Refused { refusal }
    }
}

// The fresh channel, or the blank one where opening is refused.
#[derive(Clone, Copy)]
pub struct Opened {
    pub answer: Result<(), Unopened>,
    pub channel: Channel,
}

impl Channel {
    // Opens a channel at a level and in a mode; `order` is ib_order, which NV04-style holds as 0,
    // `mask` the SLI mask and `limit` dma_limit.
    #[tactic(auto, unfolding(crate::specs::Opening::open_of, crate::specs::Opening::opened))]
    pub fn open(
        level: u32,
        mode: u32,
        order: u32,
        sli: bool,
        mask: u32,
        limit: u32,
        table: &[u32],
    ) -> Opened
        ensures { Opens level mode order sli mask limit table.now result }
    {
        let setting = Setting {
            level: Level { number: level },
            mode: Mode { number: mode },
            sli,
        };
        let answer = admitted(setting, order, mask, table);
        match answer {
            Ok(()) => Opened {
                answer,
                channel: resting(
                    Setup {
                        setting,
                        order: held(setting.mode, order),
                        limit,
                    },
                    mask,
                    true,
                ),
            },
            Err(_) => Opened {
                answer,
                channel: blank(),
            },
        }
    }
}

// Whether a channel is opened. LEVEL and MODE come before ORDER, and SLI behind it.
#[tactic(auto, using(crate::proofs::Openings::by_mask, crate::proofs::Openings::by_order, crate::proofs::Openings::by_repeat, crate::proofs::Openings::by_setting, crate::proofs::Openings::by_sli, crate::proofs::Openings::by_table), unfolding(crate::specs::Opening::duplicate_or))]
fn admitted(setting: Setting, order: u32, mask: u32, table: &[u32]) -> Result<(), Unopened>
    ensures { result ≡ opening_of setting.level.number setting.mode.number order setting.sli mask table.now }
{
    Setting {
        sli: false,
        ..setting
    }
    .check()?;
    if no_order(setting.mode, order) {
        return Err(Unopened::from(Refusal::ORDER));
    }
    setting.check()?;
    if 0xfff < mask {
        return Err(Unopened::from(Refusal::FIELD));
    }
    if no_table(table.len()) {
        return Err(Unopened::from(Refusal::TABLE));
    }
    match first_repeat(table) {
        Some(entry) => Err(Unopened::Duplicate { entry }),
        None => Ok(()),
    }
}

// The blank channel (R30).
fn blank() -> Channel
    ensures { result ≡ blank_channel }
{
    let setup = Setup {
        setting: Setting {
            level: Level::NV04,
            mode: Mode::NV04_STYLE,
            sli: false,
        },
        order: 0,
        limit: 0,
    };
    resting(setup, 0, false)
}

// Whether ORDER refuses: IB mode and above 12.
fn no_order(mode: Mode, order: u32) -> bool
    ensures { result ≡ order_refused mode.number order }
{
    mode == Mode::IB && 12 < order
}

// Whether TABLE refuses a table of so many words.
pub(crate) fn no_table(words: usize) -> bool
    ensures { result ≡ table_refused words }
{
    words % 4 != 0 || 4096 < words
}

// The ib_order that a channel holds.
#[tactic(auto, unfolding(crate::specs::Opening::held_order, word::specs::First::choose))]
fn held(mode: Mode, order: u32) -> u32
    ensures { result ≡ held_order mode.number order }
{
    if mode == Mode::IB { order } else { 0 }
}
