// What must hold of a placed debit advice: the rules of its own, 30 and 31, and the rule of the lowest number that is broken.
#![tactic(auto)]

ghost use Rattle.std.specs.Prelude.{◌≡◌, [], ◌∷◌};
ghost use Rattle.message.specs.Segs.{seg_at};
ghost use Rattle.message.specs.Advices.{debmul_of, rule30, rule31};
ghost use Rattle.message.specs.Forms.Run.{run};
ghost use Rattle.faults.specs.Firsts.{told_of};
ghost use Rattle.message.specs.Faults.{tell_all, least_of};
ghost use Rattle.message.specs.Placed.{placed_on};
ghost use Rattle.rule.specs.Laws.RunLaws.{none_passed, one_passed};
ghost use Rattle.advice.specs.Forms.Steps.{dates_start, date_by, date_step, first_date, references_start, reference_step, line_comes, first_reference};

use faults::Fault;
use numbering::LineNumbers;
use numbers::Number;
use rule::{Counts, Place, Rule};
use segments::Text;
use table::Row;
use trailer::Trailer;
use values::codes;

// The dates of the lines so far: whether BGM tells that the debit is to come, the first that does not hold then, and the first that does not hold otherwise.
#[derive(Clone, Copy, Debug, PartialEq, Eq)]
struct Dates {
    pre: bool,
    coming: Option<usize>,
    booked: Option<usize>,
}

// A SEQ, the nth segment, and whether it has a reference.
#[derive(Clone, Copy, Debug, PartialEq, Eq)]
struct Sequence {
    nth: usize,
    referenced: bool,
}

// A LIN: whether it is booked with details, and its last SEQ.
#[derive(Clone, Copy, Debug, PartialEq, Eq)]
struct Line {
    detailed: bool,
    sequence: Option<Sequence>,
}

// The references of the transactions so far: the last LIN, and the first fault.
#[derive(Clone, Copy, Debug, PartialEq, Eq)]
struct References {
    line: Option<Line>,
    first31: Option<usize>,
}

// Whether a DTM with this code may stand: 202 or 209, or 455 if the debit is to come.
#[tactic(auto, unfolding(crate::specs::Forms::Steps::date_by))]
fn date_holds(pre: bool, code: u64) -> bool
    ensures { result ≡ date_by pre code }
{
    code == codes::TWO_HUNDRED_TWO
        || code == codes::TWO_HUNDRED_NINE
        || (pre && code == codes::FOUR_HUNDRED_FIFTY_FIVE)
}

impl Dates {
    // The first date that does not hold.
    fn first(self) -> Option<usize>
        ensures { result ≡ first_date self }
    {
        if self.pre {
            return self.coming;
        }
        self.booked
    }
}

#[tactic(auto, using(crate::specs::Laws::Agree::agree30, crate::specs::Laws::StepLaws::date_title, crate::specs::Laws::StepLaws::date_line, crate::specs::Laws::StepLaws::date_other), unfolding(rule::specs::Refusals::by_rules))]
impl Rule for Dates {
    ghost rules = { λ k ss. (30, rule30 ss) ∷ [] };

    ghost first = { dates_start };

    ghost Step = { λ v m k p a b. b ≡ date_step a (seg_at v m p.nth p.row p.at) };

    ghost After = { λ v m k ss st. st ≡ run date_step dates_start ss };

    fn start() -> Self {
        Dates {
            pre: false,
            coming: None,
            booked: None,
        }
    }

    // In a BGM 342 tells that the debit is to come.
    fn step(&mut self, text: Text<'_>, counts: Counts, place: Place) {
        match place.row {
            debmul::BGM => {
                let code = values::code_in(text, place.at, 1, 0);
                self.pre |= code == codes::THREE_HUNDRED_FORTY_TWO;
            }
            debmul::LINE_DTM => {
                let code = values::code_in(text, place.at, 1, 0);
                self.coming = faults::keep(self.coming, date_holds(true, code), place.nth);
                self.booked = faults::keep(self.booked, date_holds(false, code), place.nth);
            }
            _ => {}
        }
    }

    fn refusal(&self, text: Text<'_>, other: Option<Fault>) -> Option<Fault> {
        faults::before(Number::Dates, self.first(), other)
    }

    ghost begun = { λ v m k. none_passed date_step dates_start };

    ghost gone_on = { λ v m k p ss a b h s. one_passed date_step dates_start ss (seg_at v m p.nth p.row p.at) a b h s };
}

// What the last SEQ of a line comes to: its place, unless its reference stands exactly if the line is booked with details.
#[tactic(auto, using(crate::specs::Laws::StepLaws::line_none, crate::specs::Laws::StepLaws::sequence_none, crate::specs::Laws::StepLaws::sequence_some))]
fn line_fault(line: Option<Line>) -> Option<usize>
    ensures { result ≡ line_comes line }
{
    let line = line?;
    let sequence = line.sequence?;
    faults::unless(sequence.referenced == line.detailed, sequence.nth)
}

impl References {
    // The first fault, the last SEQ's among them.
    fn first(self) -> Option<usize>
        ensures { result ≡ first_reference self }
    {
        faults::earlier(self.first31, line_fault(self.line))
    }
}

#[tactic(auto, using(crate::specs::Laws::Agree::agree31, crate::specs::Laws::StepLaws::reference_lin, crate::specs::Laws::StepLaws::reference_seq, crate::specs::Laws::StepLaws::reference_seq_none, crate::specs::Laws::StepLaws::reference_rff, crate::specs::Laws::StepLaws::reference_rff_line, crate::specs::Laws::StepLaws::reference_rff_none, crate::specs::Laws::StepLaws::reference_other), unfolding(rule::specs::Refusals::by_rules))]
impl Rule for References {
    ghost rules = { λ k ss. (31, rule31 ss) ∷ [] };

    ghost first = { references_start };

    ghost Step = { λ v m k p a b. b ≡ reference_step a (seg_at v m p.nth p.row p.at) };

    ghost After = { λ v m k ss st. st ≡ run reference_step references_start ss };

    fn start() -> Self {
        References {
            line: None,
            first31: None,
        }
    }

    // The second element of a LIN tells whether it is booked with details. A SEQ under it is another transaction: what the one before it comes to is told.
    fn step(&mut self, text: Text<'_>, counts: Counts, place: Place) {
        match place.row {
            debmul::LIN => {
                let code = values::code_in(text, place.at, 2, 0);
                self.first31 = self.first();
                self.line = Some(Line {
                    detailed: code != codes::HUNDRED_SIX,
                    sequence: None,
                });
            }
            debmul::SEQ => {
                self.first31 = self.first();
                if let Some(line) = &mut self.line {
                    line.sequence = Some(Sequence {
                        nth: place.nth,
                        referenced: false,
                    });
                }
            }
            debmul::SEQUENCE_RFF => {
                if let Some(line) = &mut self.line {
                    if let Some(sequence) = &mut line.sequence {
                        sequence.referenced = true;
                    }
                }
            }
            _ => {}
        }
    }

    fn refusal(&self, text: Text<'_>, other: Option<Fault>) -> Option<Fault> {
        faults::before(Number::References, self.first(), other)
    }

    ghost begun = { λ v m k. none_passed reference_step references_start };

    ghost gone_on = { λ v m k p ss a b h s. one_passed reference_step references_start ss (seg_at v m p.nth p.row p.at) a b h s };
}

// In the order of their numbers: 17 and 18, 20, 30, 31.
type Rules = (
    Trailer<{ debmul::UNT }>,
    (LineNumbers<{ debmul::LIN }>, (Dates, References)),
);

// The rule of the lowest number that is broken, and the first segment under it, in an advice of so many segments on a table.
pub fn judge(text: Text<'_>, t: &[Row], segments: u64) -> Option<Fault>
    ensures { told_of result ≡ least_of (tell_all (debmul_of segments (placed_on t.now text.entry.service text.entry.bytes.now))) }
{
    let counts = Counts {
        segments,
        orders: 0,
    };
    rule::judge::<Rules>(text, t, counts)
}
