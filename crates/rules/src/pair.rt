// Pairs of a place and a state.

// A place, in main or inside a subroutine.
#[derive(Clone, Copy)]
pub struct Pair {
    pub place: usize,
    pub inside: bool,
}

// The pairs at which the words go on after a command: at most two, the first of them first.
#[derive(Clone, Copy)]
pub struct Nexts {
    pub first: Option<Pair>,
    pub second: Option<Pair>,
}
