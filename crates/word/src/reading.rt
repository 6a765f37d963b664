// What a command word reads as.
ghost use Rattle.std.specs.Prelude.{◌≡◌, true, false, not, ℕ, eqb, ltb, MatchOption};
ghost use Rattle.std.specs.Bool.{then_some};
ghost use Rattle.word.specs.Parts.{bits};
ghost use Rattle.word.specs.Why.{why_of};
ghost use Rattle.word.specs.Form.{form_of, why_not, usable};
ghost use Rattle.word.specs.Reading.{form, command_in, reading_of};
ghost use Rattle.word.specs.Outcomes.{Reads, ReadsAt};
ghost use Rattle.word.specs.declared.why.Why.TheVariants as why;

use crate::setting::{Level, MOST_WORDS, Mode, Refusal, Setting};
use crate::why::Why;

// A command, with its numbers in the order in which its words hold them. Methods and targets are
// byte numbers, multiples of 4.
#[derive(Clone, Copy, PartialEq, Eq)]
pub enum Reading {
    Increasing {
        count: u32,
        subchannel: u32,
        method: u32,
    },
    NonIncreasing {
        count: u32,
        subchannel: u32,
        method: u32,
    },
    Sli {
        mask: u32,
    },
    Return,
    Long {
        subchannel: u32,
        method: u32,
        count: u32,
    },
    OldJump {
        target: u32,
    },
    Jump {
        target: u32,
    },
    Call {
        target: u32,
    },
    Reserved {
        why: Why,
    },
    Refused {
        refusal: Refusal,
    },
}

// What a word reads as; `next` is the word after it, where a long form has its count.
pub fn read(setting: Setting, word: u32, next: u32) -> Reading
    ensures { Reads setting word next result }
{
    match setting.check() {
        Ok(()) => read_checked(setting, word, next),
        Err(refusal) => Reading::Refused { refusal },
    }
}

// The same at a place of lent words; nothing past the last. A long form at the last of them has 0 for its
// next word.
pub fn read_at(setting: Setting, words: &[u32], place: usize) -> Result<Option<Reading>, Refusal>
    ensures { ReadsAt setting words.now place result }
{
    setting.check()?;
    if MOST_WORDS < words.len() {
        return Err(Refusal::SIZE);
    }
    if words.len() <= place {
        return Ok(None);
    }
    let next = words.get(place + 1).copied().unwrap_or(0);
    Ok(Some(read_checked(setting, words[place], next)))
}

// What a word reads as at a setting that has been checked.
#[tactic(auto, using(crate::proofs::First::choose_false, crate::proofs::First::choose_true, crate::proofs::RoundTrip::form_of_command), unfolding(crate::specs::Reading::reading_of))]
fn read_checked(setting: Setting, word: u32, next: u32) -> Reading
    ensures { result ≡ reading_of setting word next }
{
    let command = command(word, next);
    match why_not(setting, command) {
        None => command,
        Some(why) => Reading::Reserved { why },
    }
}

// The command that a word's bits are, whether or not it may be used anywhere. The two lowest bits
// are looked at first: they alone make a jump or a call.
fn command(word: u32, next: u32) -> Reading
    ensures { result ≡ command_in (form_of word) word next }
{
    let low = word & 3;
    if low == 0 {
        return by_upper_bits(word, next);
    }
    if low == 1 {
        return Reading::Jump {
            target: word & 0xffff_fffc,
        };
    }
    if low == 2 {
        return Reading::Call {
            target: word & 0xffff_fffc,
        };
    }
    Reading::Reserved { why: Why::Form }
}

// The same where bits 1-0 are 00.
fn by_upper_bits(word: u32, next: u32) -> Reading
    requires { bits 1 0 word ≡ 0 }
    ensures { result ≡ command_in (form_of word) word next }
{
    let top = word >> 29;
    if top == 1 {
        return Reading::OldJump {
            target: word & 0x1fff_fffc,
        };
    }
    let middle = (word >> 16) & 3;
    if middle == 0 {
        return run(word);
    }
    by_upper_half(word, next)
}

// A word with bits 17-16 = 00 that is no old jump: a run of methods, by bits 31-29, whatever word
// comes next.
fn run(word: u32) -> Reading
    requires { (bits 1 0 word ≡ 0) × (bits 17 16 word ≡ 0) × (bits 31 29 word ≡ 1 → ⊥) }
    ensures { (next : ℕ) → result ≡ command_in (form_of word) word next }
{
    let top = word >> 29;
    let count = (word >> 18) & 0x7ff;
    let subchannel = (word >> 13) & 7;
    let method = word & 0x1ffc;
    if top == 0 {
        return Reading::Increasing {
            count,
            subchannel,
            method,
        };
    }
    if top == 2 {
        return Reading::NonIncreasing {
            count,
            subchannel,
            method,
        };
    }
    Reading::Reserved { why: Why::Form }
}

// A word with other bits 17-16 that is no old jump: the forms that are told by their upper half.
#[tactic(auto, using(crate::proofs::Decode::field, crate::proofs::Decode::field_0, crate::proofs::Decode::long_is, crate::proofs::Decode::odd_sli_is, crate::proofs::Decode::rest_is, crate::proofs::Decode::return_is, crate::proofs::Decode::sli_is, crate::proofs::Decode::upper_half, crate::proofs::Decode::whole_word))]
fn by_upper_half(word: u32, next: u32) -> Reading
    requires { (bits 1 0 word ≡ 0) × (bits 17 16 word ≡ 0 → ⊥) × (bits 31 29 word ≡ 1 → ⊥) }
    ensures { result ≡ command_in (form_of word) word next }
{
    let upper = word >> 16;
    if upper == 1 {
        if word & 0xf == 0 {
            return Reading::Sli {
                mask: (word >> 4) & 0xfff,
            };
        }
        return Reading::Reserved { why: Why::Form };
    }
    if upper == 3 {
        return Reading::Long {
            subchannel: (word >> 13) & 7,
            method: word & 0x1ffc,
            count: next & 0xff_ffff,
        };
    }
    if word == 0x0002_0000 {
        return Reading::Return;
    }
    Reading::Reserved { why: Why::Form }
}

// Why a command may not be used at a setting, if it may not: the first of the whys that applies. An
// increasing run may be used at every setting.
#[tactic(auto, using(crate::proofs::Usable::told), unfolding(crate::proofs::Usable::said))]
pub(crate) fn why_not(setting: Setting, command: Reading) -> Option<Why>
    ensures { MatchOption result (usable setting (form command) ≡ true) (λ why. (usable setting (form command) ≡ false) × (why ≡ why_of (why_not setting (form command)))) }
{
    match command {
        Reading::Increasing { .. } => None,
        Reading::NonIncreasing { .. } => below(setting, Level::NV10),
        Reading::Sli { .. } => below(setting, Level::NV40).or(sli_off(setting)),
        Reading::Return => below(setting, Level::NV11).or(not_in(setting, Mode::NV04_STYLE)),
        Reading::Long { .. } => not_in(setting, Mode::IB),
        Reading::OldJump { .. } => not_in(setting, Mode::NV04_STYLE),
        Reading::Jump { .. } => below(setting, Level::NV11).or(not_in(setting, Mode::NV04_STYLE)),
        Reading::Call { .. } => below(setting, Level::NV11).or(not_in(setting, Mode::NV04_STYLE)),
        Reading::Reserved { .. } => Some(Why::Form),
        Reading::Refused { .. } => Some(Why::Form),
    }
}

// LEVEL, of a form that is used from `first` up.
fn below(setting: Setting, first: Level) -> Option<Why>
    ensures { result ≡ then_some (ltb setting.level.number first.number) why.Level }
{
    (setting.level < first).then_some(Why::Level)
}

// MODE, of a form of one mode.
fn not_in(setting: Setting, mode: Mode) -> Option<Why>
    ensures { result ≡ then_some (not (eqb setting.mode.number mode.number)) why.Mode }
{
    (setting.mode != mode).then_some(Why::Mode)
}

// SLI, of a form that needs it on.
fn sli_off(setting: Setting) -> Option<Why>
    ensures { result ≡ then_some (not setting.sli) why.Sli }
{
    (!setting.sli).then_some(Why::Sli)
}
