// The author's map put right: the map that marks exactly what the words come to, written over the author's,
// and each byte that changed in a list (docs/CARD.md, H12 to H17).
#![tactic(auto)]

mod marks;
mod repairing;

pub use repairing::repair;
