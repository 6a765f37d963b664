// Why a word is reserved, and a command may not be written.
ghost use Rattle.word.specs.Outcomes.{Counts, Named};

// No such form; not at this level; not in this mode; not with SLI off. The first that applies counts.
#[derive(Clone, Copy, PartialEq, Eq)]
pub enum Why {
    Form = 1,
    Level = 2,
    Mode = 3,
    Sli = 4,
}

// A number that no why has.
#[derive(Clone, Copy, PartialEq, Eq)]
pub struct UnknownWhy(pub u32);

impl Why {
    // A why's number (docs/CARD.md, W20 to W23).
    #[tactic(auto, unfolding(crate::specs::Why::why_number))]
    pub fn number(self) -> u8
        ensures { Counts self result }
    {
        self as u8
    }
}

impl TryFrom<u32> for Why {
    type Error = UnknownWhy;

    ghost try_from_gives = { Named };

    #[tactic(auto, unfolding(crate::specs::Why::why_number))]
    fn try_from(number: u32) -> Result<Self, UnknownWhy> {
        match number {
            1 => Ok(Why::Form),
            2 => Ok(Why::Level),
            3 => Ok(Why::Mode),
            4 => Ok(Why::Sli),
            _ => Err(UnknownWhy(number)),
        }
    }
}
