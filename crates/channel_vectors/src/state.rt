// A channel and its words, each at its place.
use crate::layout;
use crate::layout::CHANNEL_WORDS;
use channel::Channel;
use puller::{Acquire, AcquireMode, LongSemaphore, Puller, PullerError, Semaphore};
use pusher::{Ib, Main, Pusher, PusherError, Run, Setup, Sli, Subroutine};
use records::Words;
use word::{Level, Mode, Setting, Why};

// The next words: a channel's.
pub(crate) fn next_channel(input: &mut Words<'_>) -> [u32; CHANNEL_WORDS] {
    let mut words = [0; CHANNEL_WORDS];
    for word in &mut words {
        *word = input.next_word();
    }
    words
}

pub(crate) fn channel_of(q: [u32; CHANNEL_WORDS]) -> Channel {
    Channel {
        setup: setup_of(q),
        pusher: pusher_of(q),
        puller: puller_of(q),
    }
}

// The other way: each part puts its words in their places.
pub(crate) fn words_of(channel: Channel) -> [u32; CHANNEL_WORDS] {
    let words = with_setup([0; CHANNEL_WORDS], channel.setup);
    let words = with_pusher(words, channel.pusher);
    with_puller(words, channel.puller)
}

fn setup_of(q: [u32; CHANNEL_WORDS]) -> Setup {
    Setup {
        setting: Setting {
            level: Level {
                number: q[layout::LEVEL],
            },
            mode: Mode {
                number: q[layout::MODE],
            },
            sli: flag(q[layout::SLI]),
        },
        order: q[layout::IB_ORDER],
        limit: q[layout::DMA_LIMIT],
    }
}

fn with_setup(words: [u32; CHANNEL_WORDS], setup: Setup) -> [u32; CHANNEL_WORDS] {
    let mut words = words;
    words[layout::LEVEL] = setup.setting.level.number;
    words[layout::MODE] = setup.setting.mode.number;
    words[layout::SLI] = u32::from(setup.setting.sli);
    words[layout::IB_ORDER] = setup.order;
    words[layout::DMA_LIMIT] = setup.limit;
    words
}

fn pusher_of(q: [u32; CHANNEL_WORDS]) -> Pusher {
    Pusher {
        get: pair_of(q[layout::GET], q[layout::GET_HIGH]),
        put: pair_of(q[layout::PUT], q[layout::PUT_HIGH]),
        run: run_of(q),
        subroutine: Subroutine {
            active: flag(q[layout::SUBROUTINE]),
            back: q[layout::RETURN_ADDRESS],
        },
        ib: Ib {
            get: q[layout::IB_GET],
            put: q[layout::IB_PUT],
        },
        main: Main {
            nonmain: flag(q[layout::NOT_MAIN]),
            mget: pair_of(q[layout::DMA_MGET], q[layout::DMA_MGET_HIGH]),
            valid: flag(q[layout::DMA_MGET_VALID]),
        },
        sli: Sli {
            mask: q[layout::SLI_MASK],
            active: flag(q[layout::SLI_ACTIVE]),
        },
        error: pusher_error(q[layout::PUSHER_ERROR], q[layout::PUSHER_WHY]),
    }
}

fn run_of(q: [u32; CHANNEL_WORDS]) -> Run {
    Run {
        count: q[layout::COUNT],
        method: (q[layout::METHOD] % 0x1_0000) as u16,
        subchannel: q[layout::SUBCHANNEL],
        increasing: flag(q[layout::INCREASING]),
        awaited: flag(q[layout::COUNT_AWAITED]),
    }
}

fn with_pusher(words: [u32; CHANNEL_WORDS], pusher: Pusher) -> [u32; CHANNEL_WORDS] {
    let mut words = words;
    words[layout::GET] = low(pusher.get);
    words[layout::GET_HIGH] = high(pusher.get);
    words[layout::PUT] = low(pusher.put);
    words[layout::PUT_HIGH] = high(pusher.put);
    words[layout::COUNT] = pusher.run.count;
    words[layout::METHOD] = u32::from(pusher.run.method);
    words[layout::SUBCHANNEL] = pusher.run.subchannel;
    words[layout::INCREASING] = u32::from(pusher.run.increasing);
    words[layout::COUNT_AWAITED] = u32::from(pusher.run.awaited);
    words[layout::SUBROUTINE] = u32::from(pusher.subroutine.active);
    words[layout::RETURN_ADDRESS] = pusher.subroutine.back;
    words[layout::IB_GET] = pusher.ib.get;
    words[layout::IB_PUT] = pusher.ib.put;
    words[layout::NOT_MAIN] = u32::from(pusher.main.nonmain);
    words[layout::DMA_MGET] = low(pusher.main.mget);
    words[layout::DMA_MGET_HIGH] = high(pusher.main.mget);
    words[layout::DMA_MGET_VALID] = u32::from(pusher.main.valid);
    words[layout::SLI_MASK] = pusher.sli.mask;
    words[layout::SLI_ACTIVE] = u32::from(pusher.sli.active);
    words[layout::PUSHER_ERROR] = pusher::error_number(pusher.error);
    words[layout::PUSHER_WHY] = why_number(pusher.error);
    words
}

fn puller_of(q: [u32; CHANNEL_WORDS]) -> Puller {
    let mut engines = [0; 8];
    engines.copy_from_slice(&q[layout::ENGINE_0..=layout::ENGINE_7]);
    Puller {
        engines,
        last: q[layout::LAST_ENGINE],
        reference: q[layout::REF],
        semaphore: Semaphore {
            dma: q[layout::DMA_SEMAPHORE],
            offset: q[layout::SEMAPHORE_OFFSET],
            valid: flag(q[layout::OFFSET_VALID]),
        },
        acquire: Acquire {
            active: flag(q[layout::ACQUIRE_ACTIVE]),
            value: q[layout::ACQUIRE_VALUE],
            mode: acquire_mode(q[layout::ACQUIRE_MODE]),
        },
        error: puller_error(q[layout::PULLER_ERROR]),
        long: LongSemaphore {
            address: pair_of(
                q[layout::SEMAPHORE_ADDRESS],
                q[layout::SEMAPHORE_ADDRESS_HIGH],
            ),
            sequence: q[layout::SEMAPHORE_SEQUENCE],
        },
    }
}

fn with_puller(words: [u32; CHANNEL_WORDS], puller: Puller) -> [u32; CHANNEL_WORDS] {
    let mut words = words;
    words[layout::ENGINE_0..=layout::ENGINE_7].copy_from_slice(&puller.engines);
    words[layout::LAST_ENGINE] = puller.last;
    words[layout::REF] = puller.reference;
    words[layout::DMA_SEMAPHORE] = puller.semaphore.dma;
    words[layout::SEMAPHORE_OFFSET] = puller.semaphore.offset;
    words[layout::OFFSET_VALID] = u32::from(puller.semaphore.valid);
    words[layout::ACQUIRE_ACTIVE] = u32::from(puller.acquire.active);
    words[layout::ACQUIRE_VALUE] = puller.acquire.value;
    words[layout::PULLER_ERROR] = puller::error_number(puller.error);
    words[layout::SEMAPHORE_ADDRESS] = low(puller.long.address);
    words[layout::SEMAPHORE_ADDRESS_HIGH] = high(puller.long.address);
    words[layout::SEMAPHORE_SEQUENCE] = puller.long.sequence;
    words[layout::ACQUIRE_MODE] = puller.acquire.mode as u32;
    words
}

fn pusher_error(number: u32, why: u32) -> Option<PusherError> {
    match number {
        1 => Some(PusherError::Call),
        2 => Some(PusherError::NonCache),
        3 => Some(PusherError::Return),
        4 => Some(PusherError::ReservedCmd {
            why: Why::try_from(why).unwrap_or(Why::Form),
        }),
        5 => Some(PusherError::Ib),
        6 => Some(PusherError::Protection),
        _ => None,
    }
}

// The why of an error, 0 where it has none.
fn why_number(error: Option<PusherError>) -> u32 {
    let Some(PusherError::ReservedCmd { why }) = error else {
        return 0;
    };
    u32::from(why.number())
}

fn puller_error(number: u32) -> Option<PullerError> {
    match number {
        1 => Some(PullerError::NoHash),
        2 => Some(PullerError::EmptySubchannel),
        3 => Some(PullerError::Semaphore1),
        4 => Some(PullerError::Semaphore2),
        5 => Some(PullerError::Semaphore3),
        6 => Some(PullerError::Semaphore4),
        _ => None,
    }
}

// The modes of an acquire: old, equal, greater or equal.
fn acquire_mode(number: u32) -> AcquireMode {
    match number {
        1 => AcquireMode::Equal,
        2 => AcquireMode::GreaterOrEqual,
        _ => AcquireMode::Old,
    }
}

fn flag(word: u32) -> bool {
    word != 0
}

fn pair_of(low: u32, high: u32) -> u64 {
    u64::from(high) << 32 | u64::from(low)
}

fn low(pair: u64) -> u32 {
    (pair % 0x1_0000_0000) as u32
}

fn high(pair: u64) -> u32 {
    (pair >> 32) as u32
}
