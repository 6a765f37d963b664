// The associated constants have the numbers of docs/CARD.md: the check proves each line.
use word::{Level, MOST_WORDS, Mode, Refusal, Why};

pub(crate) fn constants() {
    prove!(Level::NV04.number == 0);
    prove!(Level::NV10.number == 1);
    prove!(Level::NV11.number == 2);
    prove!(Level::NV40.number == 3);
    prove!(Level::NV50.number == 4);
    prove!(Level::NV84.number == 5);
    prove!(Mode::NV04_STYLE.number == 0);
    prove!(Mode::IB.number == 1);
    prove!(Refusal::LEVEL.number == 1);
    prove!(Refusal::MODE.number == 2);
    prove!(Refusal::ORDER.number == 3);
    prove!(Refusal::SLI.number == 4);
    prove!(Refusal::TABLE.number == 5);
    prove!(Refusal::DUPLICATE.number == 6);
    prove!(Refusal::PUT.number == 7);
    prove!(Refusal::SIZE.number == 8);
    prove!(Refusal::LENGTH.number == 9);
    prove!(Refusal::FIELD.number == 10);
    prove!(Refusal::ROOM.number == 11);
    prove!(Refusal::FORM.number == 12);
    prove!(Refusal::STATE.number == 13);
    prove!(Why::Form as u8 == 1);
    prove!(Why::Level as u8 == 2);
    prove!(Why::Mode as u8 == 3);
    prove!(Why::Sli as u8 == 4);
    prove!(MOST_WORDS == 1_048_576);
}
