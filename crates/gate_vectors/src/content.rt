// What the library left in lent memory, held to what the model says. Each answer is the place of the first
// difference, counted from 1; all that the record has is read in any case.
use records::Words;

// At entry every entry of a room is this.
pub const UNTOUCHED: u64 = 0xfedc_ba98_7654_3210;

// Bytes, which a record gives as words.
pub(crate) fn bytes_differ(input: &mut Words<'_>, bytes: &[u8]) -> Option<u32> {
    let mut word = 0;
    first_wrong(bytes, |i, byte| {
        // Every fourth byte begins a word, and the others are in what is left of it.
        word = if i % 4 == 0 {
            input.next_word()
        } else {
            word >> 8
        };
        byte as u32 == word & 0xff
    })
}

// Bytes, of which the first is given and then one for all others.
pub(crate) fn uniform_differ(input: &mut Words<'_>, bytes: &[u8]) -> Option<u32> {
    let head = input.next_word();
    let rest = input.next_word();
    first_wrong(bytes, |i, byte| {
        let wanted = if i == 0 { head } else { rest };
        byte as u32 == wanted
    })
}

// The entries of a room. A record says how many it gives; the others are untouched.
pub(crate) fn entries_differ(input: &mut Words<'_>, room: &[u64]) -> Option<u32> {
    let given = input.next_word();
    first_wrong(room, |i, entry| {
        let wanted = if i < given {
            input.next_pair()
        } else {
            UNTOUCHED
        };
        entry == wanted
    })
}

// Asks for each, by its place from 0.
fn first_wrong<T: Copy, F: FnMut(u32, T) -> bool>(all: &[T], mut right: F) -> Option<u32>
    requires { F.IsAlwaysCallable right }
{
    let mut first = None;
    for (i, one) in (0..u32::MAX).zip(all) {
        if !right(i, *one) {
            first.get_or_insert(i.saturating_add(1));
        }
    }
    first
}
