// The words of a channel in the records: the place of each number. One of 64 bits has two, the lower half
// first. The model's table, CHANNEL_NUMBERS of tests/model/record.h, has the same names, and tests/host
// holds its places to these.
//
// A further field of the channel is a row at the end of both tables, or a row for each of its words, as the
// engines have. Here it is read by `setup_of`, `pusher_of` or `puller_of` of state.rt and stored by the
// `with_` of the same part. The model does both by its row; channel_states.c says how wide it is drawn, and
// what of it makes a channel ill-formed. Then `tests/host --store` makes the records anew. A change of a
// word has seven bits for its place.

pub(crate) const LEVEL: usize = 0;

pub(crate) const MODE: usize = 1;

pub(crate) const SLI: usize = 2;

pub(crate) const IB_ORDER: usize = 3;

pub(crate) const DMA_LIMIT: usize = 4;

pub(crate) const GET: usize = 5;

pub(crate) const GET_HIGH: usize = 6;

pub(crate) const PUT: usize = 7;

pub(crate) const PUT_HIGH: usize = 8;

pub(crate) const COUNT: usize = 9;

pub(crate) const METHOD: usize = 10;

pub(crate) const SUBCHANNEL: usize = 11;

pub(crate) const INCREASING: usize = 12;

pub(crate) const COUNT_AWAITED: usize = 13;

pub(crate) const SUBROUTINE: usize = 14;

pub(crate) const RETURN_ADDRESS: usize = 15;

pub(crate) const IB_GET: usize = 16;

pub(crate) const IB_PUT: usize = 17;

pub(crate) const NOT_MAIN: usize = 18;

pub(crate) const DMA_MGET: usize = 19;

pub(crate) const DMA_MGET_HIGH: usize = 20;

pub(crate) const DMA_MGET_VALID: usize = 21;

pub(crate) const SLI_MASK: usize = 22;

pub(crate) const SLI_ACTIVE: usize = 23;

pub(crate) const PUSHER_ERROR: usize = 24;

pub(crate) const ENGINE_0: usize = 25;

pub(crate) const ENGINE_1: usize = 26;

pub(crate) const ENGINE_2: usize = 27;

pub(crate) const ENGINE_3: usize = 28;

pub(crate) const ENGINE_4: usize = 29;

pub(crate) const ENGINE_5: usize = 30;

pub(crate) const ENGINE_6: usize = 31;

pub(crate) const ENGINE_7: usize = 32;

pub(crate) const LAST_ENGINE: usize = 33;

pub(crate) const REF: usize = 34;

pub(crate) const DMA_SEMAPHORE: usize = 35;

pub(crate) const SEMAPHORE_OFFSET: usize = 36;

pub(crate) const OFFSET_VALID: usize = 37;

pub(crate) const ACQUIRE_ACTIVE: usize = 38;

pub(crate) const ACQUIRE_VALUE: usize = 39;

pub(crate) const PULLER_ERROR: usize = 40;

pub(crate) const SEMAPHORE_ADDRESS: usize = 41;

pub(crate) const SEMAPHORE_ADDRESS_HIGH: usize = 42;

pub(crate) const SEMAPHORE_SEQUENCE: usize = 43;

pub(crate) const ACQUIRE_MODE: usize = 44;

pub(crate) const PUSHER_WHY: usize = 45;

pub(crate) const CHANNEL_WORDS: usize = 46;
