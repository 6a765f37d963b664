// Which pairs the words come to by the path rule, and from where (docs/CARD.md, H9 to H11).
#![tactic(auto)]

mod room;
mod searching;

pub use searching::search;
