// The listing reader, thin over `list_at`: lent words, and how far they are listed.
ghost use Rattle.listing.specs.Outcomes.{Begins, Gives};

use crate::command::{End, list_at};
use word::{Reading, Setting};

#[derive(Clone, Copy)]
pub struct Listing<'a> {
    pub words: &'a [u32],
    pub place: usize,
}

impl<'a> Listing<'a> {
    // A listing that begins at the first word.
    pub fn new(words: &'a [u32]) -> Listing<'a>
        ensures { Begins words.entry result }
    {
        Listing { words, place: 0 }
    }

    // The next item. At an end it is the same again, and the place stays.
    pub fn next<'s>(&'s mut self, setting: Setting) -> Result<Reading, End>
        ensures { Gives setting self.old result self.new }
    {
        let listed = list_at(setting, self.words, self.place);
        self.place = listed.place;
        listed.item
    }
}
