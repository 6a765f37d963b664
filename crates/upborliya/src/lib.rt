// What a host program in C calls (include/upborliya.h), which crates/upborliya_c exports: numbers and slices in, one
// number out.
#![tactic(auto)]

mod judging;
mod reading;
mod repairing;

pub use judging::upborliya_judge;
pub use reading::upborliya_read;
pub use repairing::upborliya_repair;
