// The associated constants have the numbers of docs/CARD.md: the check proves each line.
use gate::Reason;

pub(crate) fn constants() {
    prove!(Reason::MAP_BYTE.number == 1);
    prove!(Reason::NO_START.number == 2);
    prove!(Reason::RESERVED.number == 3);
    prove!(Reason::CALL_INSIDE.number == 4);
    prove!(Reason::RETURN_OUTSIDE.number == 5);
    prove!(Reason::SHORT.number == 6);
    prove!(Reason::NON_CACHE.number == 7);
    prove!(Reason::NOT_PERMITTED.number == 8);
    prove!(Reason::MARKED_PARAMETER.number == 9);
    prove!(Reason::TARGET_PAST.number == 10);
    prove!(Reason::NOT_MARKED.number == 11);
    prove!(Reason::END_INSIDE.number == 12);
    prove!(Reason::WRAPS.number == 13);
}
