// Levels, modes, refusals, and the check of a setting that reader, writer, channel and gatekeeper share.
ghost use Rattle.std.specs.Prelude.{◌≡◌};
ghost use Rattle.word.specs.Setting.{mode_refused, sli_refused};
ghost use Rattle.word.specs.Outcomes.{Checks};

// A card, by the first of its level. Any number can be handed in; LEVEL refuses those above NV84's.
#[derive(Clone, Copy, PartialEq, Eq, PartialOrd, Ord)]
pub struct Level {
    pub number: u32,
}

impl Level {
    pub const NV04: Level = Level { number: 0 };

    pub const NV10: Level = Level { number: 1 };

    pub const NV11: Level = Level { number: 2 };

    pub const NV40: Level = Level { number: 3 };

    pub const NV50: Level = Level { number: 4 };

    pub const NV84: Level = Level { number: 5 };
}

// How commands reach the card. Any number can be handed in; MODE refuses those above IB's.
#[derive(Clone, Copy, PartialEq, Eq, PartialOrd, Ord)]
pub struct Mode {
    pub number: u32,
}

impl Mode {
    pub const NV04_STYLE: Mode = Mode { number: 0 };

    pub const IB: Mode = Mode { number: 1 };
}

// Why an input is refused: by its number (docs/CARD.md, R).
#[derive(Clone, Copy, PartialEq, Eq)]
pub struct Refusal {
    pub number: u8,
}

impl Refusal {
    pub const LEVEL: Refusal = Refusal { number: 1 };

    pub const MODE: Refusal = Refusal { number: 2 };

    pub const ORDER: Refusal = Refusal { number: 3 };

    pub const SLI: Refusal = Refusal { number: 4 };

    pub const TABLE: Refusal = Refusal { number: 5 };

    pub const DUPLICATE: Refusal = Refusal { number: 6 };

    pub const PUT: Refusal = Refusal { number: 7 };

    pub const SIZE: Refusal = Refusal { number: 8 };

    pub const LENGTH: Refusal = Refusal { number: 9 };

    pub const FIELD: Refusal = Refusal { number: 10 };

    pub const ROOM: Refusal = Refusal { number: 11 };

    pub const FORM: Refusal = Refusal { number: 12 };

    pub const STATE: Refusal = Refusal { number: 13 };
}

// The most words of pushbuffer or semaphore memory: more are SIZE.
pub const MOST_WORDS: usize = 1_048_576;

// What a word is read or written at.
#[derive(Clone, Copy, PartialEq, Eq)]
pub struct Setting {
    pub level: Level,
    pub mode: Mode,
    pub sli: bool,
}

impl Setting {
    // Whether there is such a setting, or which refusal it meets first: LEVEL, MODE or SLI.
    #[tactic(auto, unfolding(crate::specs::Setting::check_of, crate::specs::First::first, crate::specs::First::choose, crate::specs::Setting::refused_or))]
    pub fn check(self) -> Result<(), Refusal>
        ensures { Checks self result }
    {
        if Level::NV84 < self.level {
            return Err(Refusal::LEVEL);
        }
        if no_mode(self.level, self.mode) {
            return Err(Refusal::MODE);
        }
        if no_sli(self.level, self.sli) {
            return Err(Refusal::SLI);
        }
        Ok(())
    }
}

// Whether there is no such mode, or not at that level.
fn no_mode(level: Level, mode: Mode) -> bool
    ensures { result ≡ mode_refused level.number mode.number }
{
    if Mode::IB < mode {
        return true;
    }
    mode == Mode::IB && level < Level::NV50
}

// Whether SLI is enabled on a level that has none.
fn no_sli(level: Level, sli: bool) -> bool
    ensures { result ≡ sli_refused level.number sli }
{
    sli && level < Level::NV40
}
