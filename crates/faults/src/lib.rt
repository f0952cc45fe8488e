// The first place at fault under a rule, and the refusal that the lowest number with a place gives.
#![tactic(auto)]

ghost use Rattle.std.specs.Prelude.{◌≡◌};
ghost use Rattle.faults.specs.Firsts.{lesser, place_unless, told_by, number_first};

use numbers::{Number, Numbered};

// Why a message is refused, a case of the table where nothing else is said, and the segment at fault, as its place among the message's.
#[derive(Clone, Copy, Debug, PartialEq, Eq)]
pub struct Fault<N = Number> {
    pub number: N,
    pub segment: usize,
}

// The earlier of two places.
#[tactic(auto, unfolding(crate::specs::Firsts::lesser), using(crate::specs::Laws::FirstsLaws::lesser_min))]
pub fn earlier(a: Option<usize>, b: Option<usize>) -> Option<usize>
    ensures { result ≡ lesser a b }
{
    match (a, b) {
        (Some(p), Some(q)) => Some(p.min(q)),
        _ => a.or(b),
    }
}

// The place `at`, if the rule does not hold there.
pub fn unless(holds: bool, at: usize) -> Option<usize>
    ensures { result ≡ place_unless holds at }
{
    (!holds).then_some(at)
}

// The first place, where the rule was broken at `first` already or is broken at `at` now.
pub fn keep(first: Option<usize>, holds: bool, at: usize) -> Option<usize>
    ensures { result ≡ lesser first (place_unless holds at) }
{
    earlier(first, unless(holds, at))
}

// The fault of the number, if it has a place, before any other fault. Any number is told, also one outside the table.
pub fn before<N: Numbered>(
    number: N,
    first: Option<usize>,
    other: Option<Fault<N>>,
) -> Option<Fault<N>>
    ensures { told_by N.number result ≡ number_first (N.number number) first (told_by N.number other) }
{
    first.map(|segment| Fault { number, segment }).or(other)
}
