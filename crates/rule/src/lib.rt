// A rule on a placed message: what it keeps while the segments pass, and the refusal that it comes to. One loop judges by any of them.
#![tactic(auto)]

ghost use Rattle.std.specs.Prelude.{◌≡◌, ℕ, List, [], ◌∷◌, ◌++◌, None};
ghost use Rattle.service.specs.declared.Service.{Service};
ghost use Rattle.faults.specs.Firsts.{told_of};
ghost use Rattle.chart.specs.Table.{Table};
ghost use Rattle.message.specs.Segs.{Seg, seg_at};
ghost use Rattle.message.specs.Placed.{placed_on};
ghost use Rattle.rule.specs.declared.Counts.{Counts};
ghost use Rattle.rule.specs.declared.placed.Place.{Place};
ghost use Rattle.rule.specs.Refusals.{by_rules};

mod placed;

use faults::Fault;
pub use placed::Place;
use placed::Places;
use segments::Text;
use table::Row;

// How many segments a message has, and how many LIN.
#[derive(Clone, Copy, Debug, PartialEq, Eq)]
pub struct Counts {
    pub segments: u64,
    pub orders: u64,
}

pub trait Rule: Copy {
    // The rules that it keeps, by their numbers, each with the segments at which it is broken.
    ghost rules: { Counts → List Seg → List (ℕ × List ℕ) };

    // What it is before the first segment.
    ghost first: { Self };

    // What a segment at a place makes of it, in a message so counted.
    ghost Step: { Service → List ℕ → Counts → Place → Self → Self → Type 0 };

    // What it is after these segments of a message so counted.
    ghost After: { Service → List ℕ → Counts → List Seg → Self → Type 0 };

    fn start() -> Self
        ensures { result ≡ first };

    // One segment more. A `match` on the row and no table of functions: the rows are constants, and an arm speaks of the rule's own parts.
    fn step(&mut self, text: Text<'_>, counts: Counts, place: Place)
        ensures { Step text.entry.service text.entry.bytes.now counts place self.old self.new };

    // The first of its rules that is broken, and the first segment under it, before another refusal.
    fn refusal(&self, text: Text<'_>, other: Option<Fault>) -> Option<Fault>
        ensures { (t : Table) (k : Counts) → After text.entry.service text.entry.bytes.now k (placed_on t text.entry.service text.entry.bytes.now) self.now → told_of result ≡ by_rules (rules k (placed_on t text.entry.service text.entry.bytes.now)) (told_of other) };

    // Before the first segment it is what it is after none, and a step takes it one segment further.
    ghost begun: { (v : Service) (m : List ℕ) (k : Counts) → After v m k [] first };

    ghost gone_on: { (v : Service) (m : List ℕ) (k : Counts) (p : Place) (ss : List Seg) (a b : Self) → After v m k ss a → Step v m k p a b → After v m k (ss ++ (seg_at v m p.nth p.row p.at ∷ [])) b };
}

// Two of them, the first one's rules before the second's.
impl<A: Rule, B: Rule> Rule for (A, B) {
    ghost rules = { λ k ss. A.rules k ss ++ B.rules k ss };

    ghost first = { (A.first, B.first) };

    ghost Step = { λ v m k p a b. A.Step v m k p a.0 b.0 × B.Step v m k p a.1 b.1 };

    ghost After = { λ v m k ss st. A.After v m k ss st.0 × B.After v m k ss st.1 };

    fn start() -> Self {
        (A::start(), B::start())
    }

    fn step(&mut self, text: Text<'_>, counts: Counts, place: Place) {
        self.0.step(text, counts, place);
        self.1.step(text, counts, place);
    }

    #[tactic(auto, using(crate::specs::Laws::RefusalLaws::both_by))]
    fn refusal(&self, text: Text<'_>, other: Option<Fault>) -> Option<Fault> {
        self.0.refusal(text, self.1.refusal(text, other))
    }

    ghost begun = { λ v m k. (A.begun v m k, B.begun v m k) };

    ghost gone_on = { λ v m k p ss a b h s. (A.gone_on v m k p ss a.0 b.0 h.0 s.0, B.gone_on v m k p ss a.1 b.1 h.1 s.1) };
}

// The first rule that is broken in a message on a table, and the first segment under it.
pub fn judge<R: Rule>(text: Text<'_>, t: &[Row], counts: Counts) -> Option<Fault>
    ensures { told_of result ≡ by_rules (R.rules counts (placed_on t.now text.entry.service text.entry.bytes.now)) None }
{
    let mut rules = R::start();
    for place in Places::new(text, t) {
        rules.step(text, counts, place);
    }
    rules.refusal(text, None)
}
