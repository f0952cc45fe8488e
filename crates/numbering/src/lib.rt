// LIN numbers run over the message, SEQ numbers under each LIN, and CNT tells the number of LIN segments: rules 20, 21 and 29.
#![tactic(auto)]

ghost use Rattle.std.specs.Prelude.{◌≡◌, [], ◌∷◌, None};
ghost use Rattle.std.specs.Option.{option_map};
ghost use Rattle.message.specs.Segs.{seg_at};
ghost use Rattle.message.specs.Rules.{rule20, rule21, rule29};
ghost use Rattle.rule.specs.Laws.RunLaws.{none_passed, one_passed};
ghost use Rattle.numbering.specs.Steps.{line_start, line_step, lines_after, sequence_start, sequence_step, sequences_after, control_start, control_step, control_after};

use faults::Fault;
use numbers::Number;
use rule::{Counts, Place, Rule};
use segments::Text;
use values::codes;

// The number of the LIN last seen. No number that a value writes reaches the end of the range, so a count may stop there. LIN and SEQ are
// counted apart, each in a struct of its own, so that neither count can be taken for the other.
#[derive(Clone, Copy, Debug, PartialEq, Eq)]
pub struct LineNumber(pub u64);

// The number of the SEQ last seen under its LIN.
#[derive(Clone, Copy, Debug, PartialEq, Eq)]
pub struct SequenceNumber(pub u64);

// 20: the last LIN, which has a row of its own on each chart, and the first at fault.
#[derive(Clone, Copy, Debug, PartialEq, Eq)]
pub struct LineNumbers<const LIN: usize> {
    pub line: LineNumber,
    pub first20: Option<usize>,
}

#[tactic(auto, using(crate::proofs::Agree::agree20), unfolding(rule::specs::Refusals::by_rules, crate::specs::Steps::line_step))]
impl<const LIN: usize> Rule for LineNumbers<LIN> {
    ghost rules = { λ k ss. (20, rule20 LIN ss) ∷ [] };

    ghost first = { line_start LIN };

    ghost Step = { λ v m k p a b. (b.line.0, b.first20) ≡ line_step LIN (a.line.0, a.first20) (seg_at v m p.nth p.row p.at) };

    ghost After = { λ v m k ss st. (st.line.0, st.first20) ≡ lines_after LIN ss };

    fn start() -> Self {
        LineNumbers {
            line: LineNumber(0),
            first20: None,
        }
    }

    fn step(&mut self, text: Text<'_>, counts: Counts, place: Place) {
        if place.row == LIN {
            self.line = LineNumber(self.line.0.saturating_add(1));
            let holds = values::number_is(text, place.at, 1, 0, self.line.0);
            self.first20 = faults::keep(self.first20, holds, place.nth);
        }
    }

    fn refusal(&self, text: Text<'_>, other: Option<Fault>) -> Option<Fault> {
        faults::before(Number::LineNumber, self.first20, other)
    }

    ghost begun = { λ v m k. none_passed (line_step LIN) (0, None) };

    ghost gone_on = { λ v m k p ss a b h s. one_passed (line_step LIN) (0, None) ss (seg_at v m p.nth p.row p.at) (a.line.0, a.first20) (b.line.0, b.first20) h s };
}

// 21: the last SEQ under the last LIN, if a LIN was seen, and the first at fault.
#[derive(Clone, Copy, Debug, PartialEq, Eq)]
pub struct SequenceNumbers {
    pub sequence: Option<SequenceNumber>,
    pub first21: Option<usize>,
}

#[tactic(auto, using(crate::proofs::Agree::agree21, faults::specs::Laws::FirstsLaws::lesser_last), unfolding(rule::specs::Refusals::by_rules, crate::specs::Steps::sequence_step, message::specs::Forms::Run::level_step, crate::specs::Steps::count_seq, crate::specs::Steps::tell_seq))]
impl Rule for SequenceNumbers {
    ghost rules = { λ k ss. (21, rule21 ss) ∷ [] };

    ghost first = { sequence_start };

    ghost Step = { λ v m k p a b. (option_map (λ n. n.0) b.sequence, b.first21) ≡ sequence_step (option_map (λ n. n.0) a.sequence, a.first21) (seg_at v m p.nth p.row p.at) };

    ghost After = { λ v m k ss st. (option_map (λ n. n.0) st.sequence, st.first21) ≡ sequences_after ss };

    fn start() -> Self {
        SequenceNumbers {
            sequence: None,
            first21: None,
        }
    }

    fn step(&mut self, text: Text<'_>, counts: Counts, place: Place) {
        if place.row == paymul::LIN {
            self.sequence = Some(SequenceNumber(0));
        } else if place.row == paymul::SEQ {
            if let Some(last) = self.sequence {
                let number = last.0.saturating_add(1);
                self.sequence = Some(SequenceNumber(number));
                let holds = values::number_is(text, place.at, 2, 0, number);
                self.first21 = faults::keep(self.first21, holds, place.nth);
            }
        }
    }

    fn refusal(&self, text: Text<'_>, other: Option<Fault>) -> Option<Fault> {
        faults::before(Number::SequenceNumber, self.first21, other)
    }

    ghost begun = { λ v m k. none_passed sequence_step (None, None) };

    ghost gone_on = { λ v m k p ss a b h s. one_passed sequence_step (None, None) ss (seg_at v m p.nth p.row p.at) (option_map (λ n. n.0) a.sequence, a.first21) (option_map (λ n. n.0) b.sequence, b.first21) h s };
}

// 29: the first CNT at fault.
#[derive(Clone, Copy, Debug, PartialEq, Eq)]
pub struct Control {
    pub first29: Option<usize>,
}

#[tactic(auto, using(crate::proofs::Agree::agree29, crate::proofs::Ways::two_code), unfolding(rule::specs::Refusals::by_rules, crate::specs::Steps::control_step, message::specs::Forms::Run::test_step))]
impl Rule for Control {
    ghost rules = { λ k ss. (29, rule29 k.orders ss) ∷ [] };

    ghost first = { control_start };

    ghost Step = { λ v m k p a b. b.first29 ≡ control_step k.orders a.first29 (seg_at v m p.nth p.row p.at) };

    ghost After = { λ v m k ss st. st.first29 ≡ control_after k.orders ss };

    fn start() -> Self {
        Control { first29: None }
    }

    // With qualifier 2 its value is the number of LIN segments.
    fn step(&mut self, text: Text<'_>, counts: Counts, place: Place) {
        if place.row == paymul::CNT && values::code_in(text, place.at, 1, 0) == codes::TWO {
            let holds = values::number_is(text, place.at, 1, 1, counts.orders);
            self.first29 = faults::keep(self.first29, holds, place.nth);
        }
    }

    fn refusal(&self, text: Text<'_>, other: Option<Fault>) -> Option<Fault> {
        faults::before(Number::Control, self.first29, other)
    }

    ghost begun = { λ v m k. none_passed (control_step k.orders) None };

    ghost gone_on = { λ v m k p ss a b h s. one_passed (control_step k.orders) None ss (seg_at v m p.nth p.row p.at) a.first29 b.first29 h s };
}
