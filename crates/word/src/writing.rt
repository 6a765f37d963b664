// A command as its words.
ghost use Rattle.std.specs.Prelude.{◌≡◌, true, ◌&&◌, ◌++◌, ◌+◌, ◌*◌, ◌^◌, ◌%◌, ◌<◌, ltb, eqb};
ghost use Rattle.word.specs.Reading.{form, values};
ghost use Rattle.word.specs.Parts.{numbers_fit, word_with};
ghost use Rattle.word.specs.Outcomes.{Writes};
ghost use Rattle.word.specs.declared.writing.Unwritten.TheVariants as unwritten;

use crate::reading::{Reading, why_not};
use crate::setting::{Refusal, Setting};
use crate::why::Why;

// Why the writer wrote nothing. The refusal FORM has a case of its own, which says why the command may
// not be used.
#[derive(Clone, Copy, PartialEq, Eq)]
pub enum Unwritten {
    Refused { refusal: Refusal },
    Form { why: Why },
}

impl From<Refusal> for Unwritten {
    ghost from_gives = { λ refusal error. error ≡ unwritten.Refused refusal };

    fn from(refusal: Refusal) -> Unwritten {
        Unwritten::Refused { refusal }
    }
}

// Writes the words that are a command's own, of a long form two, at the front of the output, or
// refuses and writes nothing. Answers how many it wrote.
#[tactic(auto, using(crate::proofs::Writer::Past, crate::proofs::Writer::by_field, crate::proofs::Writer::by_form, crate::proofs::Writer::by_room, crate::proofs::Writer::by_setting, crate::proofs::Writer::by_words, crate::proofs::Writer::one_word, crate::proofs::Writer::two_words))]
pub fn write(setting: Setting, command: Reading, out: &mut [u32]) -> Result<usize, Unwritten>
    ensures { Writes setting command out.old result out.new }
{
    setting.check()?;
    if !fields_fit(command) {
        return Err(Unwritten::from(Refusal::FIELD));
    }
    if let Some(why) = why_not(setting, command) {
        return Err(Unwritten::Form { why });
    }
    let Reading::Long {
        subchannel: _,
        method: _,
        count,
    } = command
    else {
        if out.len() < 1 {
            return Err(Unwritten::from(Refusal::ROOM));
        }
        out[0] = first_word(command);
        return Ok(1);
    };
    if out.len() < 2 {
        return Err(Unwritten::from(Refusal::ROOM));
    }
    out[0] = first_word(command);
    out[1] = count;
    Ok(2)
}

// Whether each number of a command fits its field. Neither 'reserved' nor a refusal has a field.
#[tactic(auto, using(crate::proofs::Fits::fits_is), unfolding(crate::proofs::Fits::fits))]
fn fields_fit(command: Reading) -> bool
    ensures { result ≡ numbers_fit ((form command).word ++ (form command).next) (values command) }
{
    match command {
        Reading::Increasing {
            count,
            subchannel,
            method,
        } => count < 0x800 && place_fits(subchannel, method),
        Reading::NonIncreasing {
            count,
            subchannel,
            method,
        } => count < 0x800 && place_fits(subchannel, method),
        Reading::Sli { mask } => mask < 0x1000,
        Reading::Return => true,
        Reading::Long {
            subchannel,
            method,
            count,
        } => place_fits(subchannel, method) && count < 0x100_0000,
        Reading::OldJump { target } => target < 0x2000_0000 && target % 4 == 0,
        Reading::Jump { target } => target % 4 == 0,
        Reading::Call { target } => target % 4 == 0,
        Reading::Reserved { .. } => true,
        Reading::Refused { .. } => true,
    }
}

// Whether a subchannel and a method fit their fields, and the method is a multiple of 4.
fn place_fits(subchannel: u32, method: u32) -> bool
    ensures { result ≡ ltb subchannel 8 && (ltb method 8192 && eqb (method % 4) 0) }
{
    subchannel < 8 && method < 0x2000 && method % 4 == 0
}

// A command's first word.
#[tactic(auto, using(crate::proofs::Plainly::field_plain, crate::proofs::Writer::first_is), unfolding(crate::proofs::Writer::first_of))]
fn first_word(command: Reading) -> u32
    requires { numbers_fit ((form command).word ++ (form command).next) (values command) ≡ true }
    ensures { result ≡ word_with (form command).word (values command) }
{
    match command {
        Reading::Increasing {
            count,
            subchannel,
            method,
        } => packed(count, subchannel, method),
        Reading::NonIncreasing {
            count,
            subchannel,
            method,
        } => packed(count, subchannel, method) | 0x4000_0000,
        Reading::Sli { mask } => mask << 4 | 0x1_0000,
        Reading::Return => 0x2_0000,
        Reading::Long {
            subchannel,
            method,
            count: _,
        } => packed(0, subchannel, method) | 0x3_0000,
        Reading::OldJump { target } => target | 0x2000_0000,
        Reading::Jump { target } => target | 1,
        Reading::Call { target } => target | 2,
        Reading::Reserved { .. } => 0,
        Reading::Refused { .. } => 0,
    }
}

// A count, a subchannel and a method in their places.
fn packed(count: u32, subchannel: u32, method: u32) -> u32
    requires { (count < 2 ^ 11) × (subchannel < 2 ^ 3) × (method < 2 ^ 13) }
    ensures { result ≡ count * 2 ^ 18 + (subchannel * 2 ^ 13 + method) }
{
    count << 18 | (subchannel << 13 | method)
}
