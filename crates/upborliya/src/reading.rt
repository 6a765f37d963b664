// What a word reads as, in one number.
ghost use Rattle.std.specs.Prelude.{◌≡◌, ◌+◌, ◌*◌, ◌^◌, ◌≤◌};
ghost use Rattle.upborliya.specs.Packed.{packed_run, packed_reading};
ghost use Rattle.upborliya.specs.Outcomes.{ReadsPacked};

use word::{Level, Mode, Reading, Setting, read};

// Reads a word, with the word after it. SLI is off for 0, and on for any other number.
pub fn upborliya_read(level: u32, mode: u32, sli: u32, word: u32, next: u32) -> u64
    ensures { ReadsPacked level mode sli word next result }
{
    let setting = Setting {
        level: Level { number: level },
        mode: Mode { number: mode },
        sli: sli != 0,
    };
    pack_reading(read(setting, word, next))
}

// The reading's number lowest, and above it what it says.
#[tactic(auto, unfolding(crate::specs::Packed::packed_reading))]
fn pack_reading(reading: Reading) -> u64
    ensures { result ≡ packed_reading reading }
{
    match reading {
        Reading::Increasing {
            count,
            subchannel,
            method,
        } => pack_run(1, count, subchannel, method),
        Reading::NonIncreasing {
            count,
            subchannel,
            method,
        } => pack_run(2, count, subchannel, method),
        Reading::Sli { mask } => pack_value(3, mask),
        Reading::Return => 4,
        Reading::Long {
            subchannel,
            method,
            count,
        } => pack_run(5, count, subchannel, method),
        Reading::OldJump { target } => pack_value(6, target),
        Reading::Jump { target } => pack_value(7, target),
        Reading::Call { target } => pack_value(8, target),
        Reading::Reserved { why } => why.number() as u64 * 0x1_0000 + 9,
        Reading::Refused { refusal } => refusal.number as u64 * 0x100 + 10,
    }
}

// A run: method and subchannel as a word has them, from bit 24 on, and the count above.
#[tactic(auto, unfolding(crate::specs::Packed::packed_run))]
fn pack_run(form: u64, count: u32, subchannel: u32, method: u32) -> u64
    requires { form ≤ 10 }
    ensures { result ≡ packed_run form count subchannel method }
{
    (count % 0x100_0000) as u64 * 0x100_0000_0000
        + ((subchannel % 8) as u64 * 0x20_0000_0000
            + ((method % 0x2000) as u64 * 0x100_0000 + form))
}

// A mask or a target, in the upper half.
fn pack_value(form: u64, value: u32) -> u64
    requires { form ≤ 10 }
    ensures { result ≡ value * 2 ^ 32 + form }
{
    value as u64 * 0x1_0000_0000 + form
}
