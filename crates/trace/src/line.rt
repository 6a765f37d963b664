// A line of text, and how it grows.
ghost use Rattle.std.specs.Prelude.{◌≡◌, [], ◌++◌};
ghost use Rattle.trace.specs.Text.{decimal};
ghost use Rattle.trace.specs.Line.{line_of, pushed, added};

// The most bytes of a line's text.
pub const MOST_TEXT: usize = 160;

// A text's bytes, as many as `length` says; those behind them are 0.
#[derive(Clone, Copy)]
pub struct Line {
    pub bytes: [u8; MOST_TEXT],
    pub length: usize,
}

impl Line {
    #[tactic(auto, unfolding(crate::specs::Line::line_of))]
    pub(crate) fn empty() -> Line
        ensures { result ≡ line_of [] }
    {
        Line {
            bytes: [0; MOST_TEXT],
            length: 0,
        }
    }

    // The line with one more byte, where there is room. (No line of the trace needs more room.)
    #[tactic(auto, unfolding(crate::specs::Line::pushed, word::specs::First::choose))]
    fn push(mut self, byte: u8) -> Line
        ensures { result ≡ pushed self byte }
    {
        if self.length < MOST_TEXT {
            self.bytes[self.length] = byte;
            self.length += 1;
        }
        self
    }

    #[tactic(auto, using(crate::proofs::Adding::add_next), unfolding(crate::specs::Line::added))]
    pub(crate) fn say(self, text: &[u8]) -> Line
        ensures { result ≡ added self text.now }
    {
        let mut line = self;
        for byte in text {
            line = line.push(*byte);
        }
        line
    }

    // A field: its label, and its number.
    #[tactic(auto, using(crate::proofs::Adding::add_both, crate::proofs::Digits::decimal_is))]
    pub(crate) fn tell(self, label: &[u8], number: u64) -> Line
        ensures { result ≡ added self (label.now ++ decimal number) }
    {
        let mut digits = [0u8; 20];
        let count = io::decimal(number, &mut digits);
        self.say(label).say(&digits[..count])
    }
}
