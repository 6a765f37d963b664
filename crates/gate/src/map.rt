// The map of command starts. Past its end nothing is marked.
ghost use Rattle.std.specs.Prelude.{◌≡◌, ℕ, ◌+◌, ◌≤◌, ◌<◌, length, get_or};
ghost use Rattle.word.specs.First.{choose};
ghost use Rattle.rules.specs.Map.{marked, any_start, all_bits};
ghost use Rattle.rules.specs.Reason.{MapTests, by_map, no_map};
ghost use Rattle.rules.specs.Outcomes.{MarkedAmong};

use rules::Pair;

// What is said of the marks of places: by a map, or by none.
pub trait Marks {
    ghost tests: { Self → MapTests };

    // Whether any place among the parameters that follow the command at a place is marked.
    fn among(&self, place: usize, count: u32) -> bool
        ensures { result ≡ (tests self.now).among (place + 1) count };

    // Whether a pair lacks its mark.
    fn lacks(&self, pair: Pair) -> bool
        ensures { result ≡ (tests self.now).lacks pair };
}

// A map's marks.
#[derive(Clone, Copy)]
pub struct Map<'a>(pub &'a [u8]);

impl Marks for Map<'_> {
    ghost tests = { λ m. by_map m.0.now };

    fn among(&self, place: usize, count: u32) -> bool {
        marked_among(self.0, place, count)
    }

    #[tactic(auto, unfolding(rules::specs::Map::unmarked))]
    fn lacks(&self, pair: Pair) -> bool {
        !is_marked(self.0, pair)
    }
}

// The path rule asks no map: no parameter is marked, and no pair lacks its mark.
#[derive(Clone, Copy)]
pub struct NoMap;

impl Marks for NoMap {
    ghost tests = { λ m. no_map };

    fn among(&self, _place: usize, _count: u32) -> bool {
        false
    }

    fn lacks(&self, _pair: Pair) -> bool {
        false
    }
}

// Whether the map marks a place as a start, in main or inside a subroutine.
#[tactic(auto, using(rules::proofs::Parts::mark_bit, rules::proofs::Parts::past_unmarked))]
pub(crate) fn is_marked(map: &[u8], pair: Pair) -> bool
    ensures { result ≡ marked map.now pair.place pair.inside }
{
    pair.place < map.len() && map[pair.place] & mark_of(pair.inside) != 0
}

// The bit of a map byte that marks a start in main, or inside a subroutine.
#[tactic(auto, unfolding(word::specs::First::choose))]
fn mark_of(inside: bool) -> u8
    ensures { result ≡ choose inside 2 1 }
{
    if inside { 2 } else { 1 }
}

// Whether the map marks any place among the parameters that follow the command at a place: the part of
// the map that spans them is scanned.
pub fn marked_among(map: &[u8], place: usize, count: u32) -> bool
    ensures { MarkedAmong map.now place count result }
{
    if map.len() <= place {
        return false;
    }
    let from = place + 1;
    let count = count as usize;
    if map.len() - from < count {
        return any_start(&map[from..]);
    }
    let to = from + count;
    any_start(&map[from..to])
}

// Whether a part of the map marks any start.
#[tactic(auto, using(rules::proofs::AllBits::bits_start))]
fn any_start(part: &[u8]) -> bool
    ensures { result ≡ any_start part.now }
{
    all_bits(part) != 0
}

// The bits that any byte has. No byte ends the loop, so that many are taken at once.
pub(crate) fn all_bits(part: &[u8]) -> u8
    ensures { result ≡ all_bits part.now (length part.now) }
{
    let mut bits = 0;
    for byte in part {
        bits |= byte;
    }
    bits
}

// The first start from a place on and before another, or that other where there is none.
pub(crate) fn next_start(map: &[u8], from: usize, to: usize) -> usize
    requires { (from ≤ to) × (to ≤ length map.now) }
    ensures { (from ≤ result) × (result ≤ to) × ((k : ℕ) → from ≤ k → k < result → get_or map.now k 0 ≡ 0) }
{
    for place in from..to {
        if map[place] != 0 {
            return place;
        }
    }
    to
}
