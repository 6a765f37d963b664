// The pairs at which the words go on after a command.
ghost use Rattle.std.specs.Prelude.{◌≡◌, ◌+◌, ◌/◌, ◌^◌, ◌<◌, [], ◌∷◌};
ghost use Rattle.rules.specs.Next.{◌in_state◌, nexts, held};
ghost use Rattle.rules.specs.Outcomes.{NextPairs};

use rules::{Nexts, Pair};
use word::Reading;

// Where the words go on after a command at a place, in main or inside a subroutine.
pub fn nexts(command: Reading, place: u32, inside: bool) -> Nexts
    ensures { NextPairs command place inside result }
{
    let place = place as usize;
    next_pairs(command, Pair { place, inside })
}

// The same at any place whose sum with a count does not wrap.
#[tactic(auto, unfolding(word::specs::Reading::parameter_count, rules::specs::Next::nexts, rules::specs::Next::held))]
pub(crate) fn next_pairs(command: Reading, pair: Pair) -> Nexts
    requires { pair.place < 2 ^ 63 }
    ensures { result ≡ held (nexts command pair.place pair.inside) }
{
    match command {
        Reading::Increasing { count, .. } | Reading::NonIncreasing { count, .. } => {
            behind(pair, count)
        }
        Reading::Sli { .. } => behind(pair, 0),
        Reading::OldJump { target } | Reading::Jump { target } => at_target(target, pair.inside),
        Reading::Call { target } => Nexts {
            first: Some(Pair {
                place: (target / 4) as usize,
                inside: true,
            }),
            second: Some(Pair {
                place: pair.place + 1,
                inside: false,
            }),
        },
        _ => Nexts {
            first: None,
            second: None,
        },
    }
}

// Behind so many parameters of the command at a pair.
fn behind(pair: Pair, count: u32) -> Nexts
    requires { pair.place < 2 ^ 63 }
    ensures { result ≡ held ((pair.place + 1 + count) in_state pair.inside ∷ []) }
{
    one_next(pair.place + 1 + count as usize, pair.inside)
}

// At a target, which is a byte number.
fn at_target(target: u32, inside: bool) -> Nexts
    ensures { result ≡ held ((target / 4) in_state inside ∷ []) }
{
    one_next((target / 4) as usize, inside)
}

#[tactic(auto, unfolding(rules::specs::Next::held))]
fn one_next(place: usize, inside: bool) -> Nexts
    ensures { result ≡ held (place in_state inside ∷ []) }
{
    Nexts {
        first: Some(Pair { place, inside }),
        second: None,
    }
}
