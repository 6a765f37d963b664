// The reasons that speak against a command.

// A reason, by its number (docs/CARD.md, G).
#[derive(Clone, Copy, PartialEq, Eq)]
pub struct Reason {
    pub number: u8,
}

impl Reason {
    pub const MAP_BYTE: Reason = Reason { number: 1 };

    pub const NO_START: Reason = Reason { number: 2 };

    pub const RESERVED: Reason = Reason { number: 3 };

    pub const CALL_INSIDE: Reason = Reason { number: 4 };

    pub const RETURN_OUTSIDE: Reason = Reason { number: 5 };

    pub const SHORT: Reason = Reason { number: 6 };

    pub const NON_CACHE: Reason = Reason { number: 7 };

    pub const NOT_PERMITTED: Reason = Reason { number: 8 };

    pub const MARKED_PARAMETER: Reason = Reason { number: 9 };

    pub const TARGET_PAST: Reason = Reason { number: 10 };

    pub const NOT_MARKED: Reason = Reason { number: 11 };

    pub const END_INSIDE: Reason = Reason { number: 12 };

    pub const WRAPS: Reason = Reason { number: 13 };
}
