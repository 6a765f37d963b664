// What is submitted beside the map.
ghost use Rattle.rules.specs.Outcomes.{Counts, ReadsAt};

use word::{Reading, Setting};

// The setting, the words as little-endian bytes, and the list of permitted methods.
#[derive(Clone, Copy)]
pub struct Submission<'a> {
    pub setting: Setting,
    pub words: &'a [u8],
    pub permit: &'a [u8],
}

impl Submission<'_> {
    // How many words there are.
    pub fn size(&self) -> usize
        ensures { Counts self.now.setting self.now.words.now self.now.permit.now result }
    {
        self.words.len() / 4
    }

    // What the word at a place reads as, by itself.
    pub fn command_at(&self, place: usize) -> Reading
        ensures { ReadsAt self.now.setting self.now.words.now self.now.permit.now place result }
    {
        word::read(self.setting, word::word_at(self.words, place), 0)
    }
}
