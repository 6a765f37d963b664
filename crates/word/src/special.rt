// The methods below 0x100, which the puller itself takes.
ghost use Rattle.word.specs.Outcomes.{Presents, Masks};

use crate::setting::Level;

// Those that a level has, as a mask: bit n is set for method number n. Each level has those of the one
// before it, too.
const NV04: u64 = 1 << 0x00;

const NV10: u64 = NV04 | 1 << 0x14;

const NV11: u64 = NV10 | 0xf << 0x18;

const NV40: u64 = NV11 | 1 << 0x20;

const NV50: u64 = NV40;

const NV84: u64 = NV50 | 0x3f << 0x04;

// A level's mask. Above NV84 a level has NV84's.
pub fn special_mask(level: Level) -> u64
    ensures { Masks level result }
{
    let level = level.number;
    match level {
        0 => NV04,
        1 => NV10,
        2 => NV11,
        3 => NV40,
        4 => NV50,
        _ => NV84,
    }
}

// Whether a level has a method, given by its number: its byte number divided by 4. From 0x100 up,
// number 0x40, none is special.
#[tactic(auto, using(crate::proofs::Methods::ordinary))]
pub fn present(level: Level, number: u32) -> bool
    ensures { Presents level number result }
{
    if 0x40 <= number {
        return true;
    }
    (special_mask(level) >> number) & 1 == 1
}
