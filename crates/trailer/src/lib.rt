// The trailer: UNT's count is the number of segments, and its reference is UNH's: 17 and 18.
#![tactic(auto)]

ghost use Rattle.std.specs.Prelude.{◌≡◌, [], ◌∷◌, None};
ghost use Rattle.values.specs.Numbers.{value_in};
ghost use Rattle.message.specs.Segs.{seg_at};
ghost use Rattle.message.specs.Rules.{rule17, rule18};
ghost use Rattle.rule.specs.Laws.RunLaws.{none_passed, one_passed};
ghost use Rattle.trailer.specs.Trailing.{trailer_start, count_step, count_after, reference_step, reference_after};

use faults::Fault;
use numbers::Number;
use rule::{Counts, Place, Rule};
use segments::Text;

// The first UNT, which has a row of its own on each chart, that is at fault under 17, and under 18.
#[derive(Clone, Copy, Debug, PartialEq, Eq)]
pub struct Trailer<const UNT: usize> {
    pub first17: Option<usize>,
    pub first18: Option<usize>,
}

#[tactic(auto, using(crate::proofs::Agree::agree17, crate::proofs::Agree::agree18, message::proofs::Laws::PlacedLaws::reference_first), unfolding(rule::specs::Refusals::by_rules, crate::specs::Trailing::count_step, crate::specs::Trailing::reference_step, message::specs::Forms::Run::test_step))]
impl<const UNT: usize> Rule for Trailer<UNT> {
    ghost rules = { λ k ss. (17, rule17 UNT k.segments ss) ∷ (18, rule18 UNT ss) ∷ [] };

    ghost first = { trailer_start UNT };

    ghost Step = { λ v m k p a b. (b.first17 ≡ count_step UNT k.segments a.first17 (seg_at v m p.nth p.row p.at)) × (b.first18 ≡ reference_step UNT (value_in v 0 m 1 0) a.first18 (seg_at v m p.nth p.row p.at)) };

    ghost After = { λ v m k ss st. (st.first17 ≡ count_after UNT k.segments ss) × (st.first18 ≡ reference_after UNT (value_in v 0 m 1 0) ss) };

    fn start() -> Self {
        Trailer {
            first17: None,
            first18: None,
        }
    }

    // The UNH, whose reference a UNT repeats, begins the message.
    fn step(&mut self, text: Text<'_>, counts: Counts, place: Place) {
        if place.row == UNT {
            let counted = values::number_is(text, place.at, 1, 0, counts.segments);
            self.first17 = faults::keep(self.first17, counted, place.nth);
            let referred = values::same_in(text, place.at, 2, 0, 0, 1, 0);
            self.first18 = faults::keep(self.first18, referred, place.nth);
        }
    }

    fn refusal(&self, text: Text<'_>, other: Option<Fault>) -> Option<Fault> {
        let later = faults::before(Number::TrailerReference, self.first18, other);
        faults::before(Number::TrailerCount, self.first17, later)
    }

    ghost begun = { λ v m k. (none_passed (count_step UNT k.segments) None, none_passed (reference_step UNT (value_in v 0 m 1 0)) None) };

    ghost gone_on = { λ v m k p ss a b h s. (one_passed (count_step UNT k.segments) None ss (seg_at v m p.nth p.row p.at) a.first17 b.first17 h.0 s.0, one_passed (reference_step UNT (value_in v 0 m 1 0)) None ss (seg_at v m p.nth p.row p.at) a.first18 b.first18 h.1 s.1) };
}
