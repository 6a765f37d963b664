// The room: of each pair the one that it was found from, in the lower half of the pair's entry; and the
// pairs in the order in which they were found, in the upper halves.
ghost use Rattle.std.specs.Prelude.{◌≡◌, List, [], ◌∷◌, ◌*◌, ◌^◌, ◌≤◌, ◌<◌, IfSome, eqb, length};
ghost use Rattle.word.specs.First.{choose};
ghost use Rattle.rules.specs.Search.{number_of, Found, ◌found_from◌, find, find_each, list_of};
ghost use Rattle.rules.specs.Next.{pair_in, pairs_in};
ghost use Rattle.search.specs.Room.{entry_of, Holds, Filled};

use rules::{Nexts, Pair};

// The entries, two a word, how many words there are, and how many pairs were found.
#[derive(Drop)]
pub(crate) struct Room<'a> {
    pub(crate) entries: &'a mut [u64],
    pub(crate) end: usize,
    pub(crate) count: usize,
    ghost sized: { (end ≤ 2 ^ 20) × (length entries.now ≡ 2 * end) },
    ghost filled: { Filled entries.now count },
}

impl<'a> Room<'a> {
    ghost use Rattle.search.specs.Finding.{Becomes};

    // Place 0 in main, where there are words, is found from itself.
    pub(crate) fn begin(entries: &'a mut [u64], end: usize) -> Room<'a>
        requires { (end ≤ 2 ^ 20) × (length entries.old ≡ 2 * end) × (entries.old ≡ list_of (entry_of []) (length entries.old)) }
        ensures same_reference { result.entries.ghost_name ≡ entries.entry.ghost_name }
        ensures sized { result.end ≡ end }
        ensures held { Holds (choose (eqb end 0) [] (0 found_from 0 ∷ [])) result.entries.now result.count }
    {
        if end == 0 {
            return Room {
                entries,
                end,
                count: 0,
            };
        }
        entries[0] = 1;
        Room {
            entries,
            end,
            count: 1,
        }
    }

    // The next pairs of a pair, of which each is found that is not the end and was not found before.
    #[tactic(auto, using(crate::proofs::Rooms::each_append), unfolding(rules::specs::Next::pairs_in))]
    pub(crate) fn find_each(&mut self, from: usize, next: Nexts)
        requires { (from < 2 * self.old.end) × IfSome next.first (λ q. q.place ≤ self.old.end) × IfSome next.second (λ q. q.place ≤ self.old.end) }
        ensures { Becomes (λ fs. find_each self.old.end from fs (pairs_in next)) self.old self.new }
    {
        self.find_next(from, next.first);
        self.find_next(from, next.second);
    }

    // One of them, if there is one.
    #[tactic(auto, unfolding(rules::specs::Next::pair_in, rules::specs::Search::find_each))]
    fn find_next(&mut self, from: usize, next: Option<Pair>)
        requires { (from < 2 * self.old.end) × IfSome next (λ q. q.place ≤ self.old.end) }
        ensures { Becomes (λ fs. find_each self.old.end from fs (pair_in next)) self.old self.new }
    {
        if let Some(pair) = next {
            self.find(from, pair);
        }
    }

    // That one.
    fn find(&mut self, from: usize, pair: Pair)
        requires { (from < 2 * self.old.end) × (pair.place ≤ self.old.end) }
        ensures { Becomes (λ fs. find self.old.end from fs pair) self.old self.new }
    {
        if pair.place == self.end {
            return;
        }
        let number = number_of(pair);
        if self.entries[number] % 0x1_0000_0000 != 0 {
            return;
        }
        // Between these writes the room holds no list, so that it isn't used as a whole before the last.
        let entries = &mut *self.entries;
        entries[number] += from as u64 + 1;
        entries[self.count] += number as u64 * 0x1_0000_0000;
        self.count += 1;
    }
}

// A pair's number: its entry.
#[tactic(auto, unfolding(rules::specs::Search::number_of, word::specs::First::choose))]
fn number_of(pair: Pair) -> usize
    requires { pair.place < 2 ^ 30 }
    ensures { result ≡ number_of pair }
{
    if pair.inside {
        return 2 * pair.place + 1;
    }
    2 * pair.place
}
