// The pools whose first bytes and entries a record lends.
use records::{Unknown, Words};

// The most bytes that a large record lends: more than the library takes, so that SIZE is tried.
pub const LARGE_WORDS: usize = 4_194_312;

pub const LARGE_MAP: usize = 1_048_580;

// The most bytes that a record lends as its list of permitted methods.
pub const MOST_PERMIT: usize = 4096;

// The most entries that a record lends as the list's room, and as the work room.
pub const MOST_LIST: usize = 8200;

pub const MOST_WORK: usize = 16_400;

#[derive(Drop)]
pub(crate) struct Pools<'a> {
    pub(crate) words: &'a mut [u8],
    pub(crate) map: &'a mut [u8],
    pub(crate) permit: &'a mut [u8],
    pub(crate) list: &'a mut [u64],
    pub(crate) work: &'a mut [u64],
}

// The first of a pool; the format has no record that lends more than there are.
pub(crate) fn lend<T>(pool: &mut [T], count: usize) -> Result<&mut [T], Unknown> {
    pool.get_mut(..count).ok_or(Unknown)
}

// Reads bytes that a record gives as words. What makes the last word whole is read too, and not lent.
pub(crate) fn load(input: &mut Words<'_>, pool: &mut [u8], count: usize) {
    let whole = count.div_ceil(4).saturating_mul(4);
    for (byte, given) in pool.iter_mut().zip(input.next_bytes(whole)) {
        *byte = *given;
    }
}
