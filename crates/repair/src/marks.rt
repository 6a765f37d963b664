// The marks of the exact map, by what the search left in the work room.
ghost use Rattle.std.specs.Prelude.{◌≡◌, ◌*◌, ◌^◌, ◌%◌, ◌≤◌, ◌<◌, eqb, length};
ghost use Rattle.word.specs.First.{choose};
ghost use Rattle.repair.specs.Changes.{change, Rewrites};

// The map, the list of what changed and the work room, while the map is rewritten; and how many bytes of it
// changed by then. Each has its own lifetime: with one for all, only of the first is it known what it holds
// once they come back.
#[derive(Drop)]
struct Marks<'m, 'l, 'w> {
    map: &'m mut [u8],
    list: &'l mut [u64],
    work: &'w mut [u64],
    count: usize,
    ghost sized: { (length map.now < 2 ^ 32) × (length map.now ≤ length list.now) × (length work.now ≡ 2 * length map.now) },
}

// Writes the map's new bytes over the old, lists those that changed, and clears the work room on the way.
// Answers how many changed.
pub(crate) fn rewrite(map: &mut [u8], list: &mut [u64], work: &mut [u64]) -> usize
    requires { (length map.old < 2 ^ 32) × (length map.old ≤ length list.old) × (length work.old ≡ 2 * length map.old) }
    ensures { Rewrites map.old list.old work.old map.new list.new work.new result }
{
    let places = map.len();
    let mut marks = Marks::begin(map, list, work);
    for place in 0..places {
        marks.put(place);
    }
    marks.count
}

impl<'m, 'l, 'w> Marks<'m, 'l, 'w> {
    ghost use Rattle.repair.specs.Marking.{Writes, Takes};

    // Nothing has changed yet.
    fn begin(map: &'m mut [u8], list: &'l mut [u64], work: &'w mut [u64]) -> Marks<'m, 'l, 'w>
        requires { (length map.old < 2 ^ 32) × (length map.old ≤ length list.old) × (length work.old ≡ 2 * length map.old) }
        ensures same_map { result.map.ghost_name ≡ map.entry.ghost_name }
        ensures same_list { result.list.ghost_name ≡ list.entry.ghost_name }
        ensures same_work { result.work.ghost_name ≡ work.entry.ghost_name }
        ensures unchanged { (result.map.now ≡ map.old) × (result.list.now ≡ list.old) × (result.work.now ≡ work.old) × (result.count ≡ 0) }
    {
        Marks {
            map,
            list,
            work,
            count: 0,
        }
    }

    // The byte of one place.
    fn put(&mut self, place: usize)
        requires { (place < length self.old.map.now) × (self.old.count ≤ place) }
        ensures { Writes place self.old self.new }
    {
        let new = self.take_byte(place);
        let old = self.map[place];
        if old == new {
            return;
        }
        self.map[place] = new;
        self.list[self.count] = change(place, old, new);
        self.count += 1;
    }

    // The new byte of a place, whose two entries are cleared.
    fn take_byte(&mut self, place: usize) -> u8
        requires { place < length self.old.map.now }
        ensures { Takes place self.old self.new result }
    {
        let main = 2 * place;
        let inside = main + 1;
        let new = mark(self.work[main], 1) + mark(self.work[inside], 2);
        self.work[main] = 0;
        self.work[inside] = 0;
        new
    }
}

// The mark of a pair, if its entry says that it was found.
#[tactic(auto, unfolding(word::specs::First::choose))]
fn mark(entry: u64, mark: u8) -> u8
    ensures { result ≡ choose (eqb (entry % 2 ^ 32) 0) 0 mark }
{
    if entry % 0x1_0000_0000 == 0 {
        return 0;
    }
    mark
}

// An entry of the list.
#[tactic(auto, unfolding(crate::specs::Changes::change))]
fn change(place: usize, old: u8, new: u8) -> u64
    requires { place < 2 ^ 32 }
    ensures { result ≡ change place old new }
{
    place as u64 + old as u64 * 0x1_0000_0000 + new as u64 * 0x100_0000_0000
}
