// An IB entry taken apart.
ghost use Rattle.std.specs.Prelude.{◌≡◌};
ghost use Rattle.pusher.specs.Entry.{entry_of};

// Where the words are, how many, and whether they are outside the main pushbuffer.
#[derive(Clone, Copy)]
pub(crate) struct Entry {
    pub address: u64,
    pub size: u64,
    pub nonmain: bool,
}

impl From<u64> for Entry {
    ghost from_gives = { λ entry result. result ≡ entry_of entry };

    #[tactic(auto, using(crate::proofs::Entries::entry_by_masks))]
    fn from(entry: u64) -> Entry {
        Entry {
            address: ((entry >> 2) & 0x3f_ffff_ffff) << 2,
            size: entry >> 42,
            nonmain: (entry >> 41) & 1 == 1,
        }
    }
}
