// The object table: entries of four words, the first of them the handle. A last entry that isn't
// whole does not exist.
ghost use Rattle.std.specs.Prelude.{◌≡◌, ◌<◌, length};
ghost use Rattle.std.specs.Simd.{first_chunks};
ghost use Rattle.puller.specs.Object.{entries, object_at, repeats};
ghost use Rattle.puller.specs.Outcomes.{Finds, Repeats};

#[derive(Clone, Copy)]
pub struct Object {
    pub engine: u32,
    pub address: u32,
    pub class: u32,
    pub writeonly: bool,
    pub paged: bool,
}

// The object of the lowest entry with a handle.
pub fn lookup(table: &[u32], handle: u32) -> Option<Object>
    ensures { Finds table.now handle result }
{
    let (entries, _) = table.as_chunks::<4>();
    entries
        .iter()
        .find(|entry| entry[0] == handle)
        .map(object_of)
}

// The object that an entry describes.
#[tactic(auto, unfolding(crate::specs::Object::object_at))]
fn object_of(entry: &[u32; 4]) -> Object
    ensures { result ≡ object_at entry.now 0 }
{
    let [_, engine, address, kind] = *entry;
    Object {
        engine: engine & 0x1f,
        address,
        class: kind & 0xffff,
        writeonly: (kind >> 16) & 1 == 1,
        paged: (kind >> 17) & 1 == 1,
    }
}

// The lowest entry with the handle of an earlier one.
pub fn first_repeat(table: &[u32]) -> Option<usize>
    ensures { Repeats table.now result }
{
    (0..table.len() / 4).find(|&later| repeats(table, later))
}

// Whether an entry has the handle of an earlier one.
fn repeats(table: &[u32], later: usize) -> bool
    requires { later < entries table.now }
    ensures { result ≡ repeats table.now later }
{
    let (entries, _) = table.as_chunks::<4>();
    let [handle, ..] = entries[later];
    entries[..later].iter().any(|entry| entry[0] == handle)
}
