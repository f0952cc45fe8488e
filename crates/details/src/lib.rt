// The details of a payment, told by the PRC of its SG16: rule 28.
#![tactic(auto)]

ghost use Rattle.std.specs.Prelude.{◌≡◌, false, [], ◌∷◌, None, Some};
ghost use Rattle.std.specs.Option.{option_map};
ghost use Rattle.faults.specs.Firsts.{lesser};
ghost use Rattle.message.specs.Segs.{seg_at};
ghost use Rattle.message.specs.Rules.{rule28};
ghost use Rattle.message.specs.Forms.Run.{run};
ghost use Rattle.rule.specs.Laws.RunLaws.{none_passed, one_passed};
ghost use Rattle.details.specs.Forms.Steps.{common_comes, group_holds, group_comes, order_ended, group_ended, details_start, details_step, details_close};

use faults::Fault;
use numbers::Number;
use rule::{Counts, Place, Rule};
use segments::Text;
use values::codes;

// An order: whether it has an SG10, and the first PRC of an SG16 in it.
#[derive(Clone, Copy, Debug, PartialEq, Eq)]
pub struct Common {
    pub common: bool,
    pub prc: Option<usize>,
}

// An SG16: its PRC and the PRC's code, and whether an FTX and an SG17 came.
#[derive(Clone, Copy, Debug, PartialEq, Eq)]
pub struct Group {
    pub prc: usize,
    pub code: u64,
    pub text: bool,
    pub documents: bool,
}

// The order and the SG16 at hand, if there is one, and the first PRC at fault by each rule.
#[derive(Clone, Copy, Debug, PartialEq, Eq)]
pub struct Details {
    pub order: Option<Common>,
    pub orders: Option<usize>,
    pub group: Option<Group>,
    pub groups: Option<usize>,
}

// Whether code, text and documents go together: 8, documents alone; 9 or 10, both; 11, text alone.
#[tactic(auto, unfolding(crate::specs::Forms::Steps::group_holds))]
fn code_holds(code: u64, text: bool, documents: bool) -> bool
    ensures { result ≡ group_holds code text documents }
{
    (code == codes::EIGHT && documents && !text)
        || ((code == codes::NINE || code == codes::TEN) && documents && text)
        || (code == codes::ELEVEN && text && !documents)
}

// The first PRC of an SG16 in an order that has an SG10.
#[tactic(auto, unfolding(crate::specs::Forms::Steps::common_comes))]
fn order_fault(order: Option<Common>) -> Option<usize>
    ensures { result ≡ common_comes order }
{
    let order = order?;
    if order.common { order.prc } else { None }
}

// The PRC of an SG16 whose code does not go with its text and documents.
#[tactic(auto, unfolding(crate::specs::Forms::Steps::group_comes))]
fn group_fault(group: Option<Group>) -> Option<usize>
    ensures { result ≡ group_comes group }
{
    let group = group?;
    faults::unless(
        code_holds(group.code, group.text, group.documents),
        group.prc,
    )
}

impl Details {
    // The end of an SG16, and the next one, if there is one.
    fn next_group(&mut self, group: Option<Group>)
        ensures { self.new ≡ group_ended self.old group }
    {
        self.groups = faults::earlier(self.groups, group_fault(self.group));
        self.group = group;
    }

    // The end of an order and of its last SG16, and the next order, if there is one.
    fn next_order(&mut self, order: Option<Common>)
        ensures { self.new ≡ order_ended self.old order }
    {
        self.next_group(None);
        self.orders = faults::earlier(self.orders, order_fault(self.order));
        self.order = order;
    }

    // The first PRC at fault, with the order and the SG16 at hand ended. Each rule ends its own parts: a generic `close` would take both steps as arguments.
    #[tactic(auto, using(crate::specs::Laws::StepLaws::closed))]
    pub fn close(mut self) -> Option<usize>
        ensures { result ≡ details_close self }
    {
        self.next_order(None);
        faults::earlier(self.orders, self.groups)
    }
}

#[tactic(auto, using(crate::specs::Laws::Agree::agree28, crate::specs::Laws::StepLaws::step_lin, crate::specs::Laws::StepLaws::step_seq, crate::specs::Laws::StepLaws::step_prc, crate::specs::Laws::StepLaws::step_prc_none, crate::specs::Laws::StepLaws::step_common, crate::specs::Laws::StepLaws::step_common_none, crate::specs::Laws::StepLaws::step_text, crate::specs::Laws::StepLaws::step_text_none, crate::specs::Laws::StepLaws::step_documents, crate::specs::Laws::StepLaws::step_documents_none, crate::specs::Laws::StepLaws::step_other), unfolding(rule::specs::Refusals::by_rules))]
impl Rule for Details {
    ghost rules = { λ k ss. (28, rule28 ss) ∷ [] };

    ghost first = { details_start };

    ghost Step = { λ v m k p a b. b ≡ details_step a (seg_at v m p.nth p.row p.at) };

    ghost After = { λ v m k ss st. st ≡ run details_step details_start ss };

    fn start() -> Self {
        Details {
            order: None,
            orders: None,
            group: None,
            groups: None,
        }
    }

    fn step(&mut self, text: Text<'_>, counts: Counts, place: Place) {
        match place.row {
            paymul::LIN => self.next_order(Some(Common {
                common: false,
                prc: None,
            })),
            paymul::SEQ => self.next_group(None),
            paymul::PAYMENT_PRC => {
                if let Some(order) = &mut self.order {
                    order.prc = faults::earlier(order.prc, Some(place.nth));
                }
                self.next_group(Some(Group {
                    prc: place.nth,
                    code: values::code_in(text, place.at, 1, 0),
                    text: false,
                    documents: false,
                }));
            }
            paymul::ORDER_PRC => {
                if let Some(order) = &mut self.order {
                    order.common = true;
                }
            }
            paymul::PAYMENT_FTX => {
                if let Some(group) = &mut self.group {
                    group.text = true;
                }
            }
            paymul::PAYMENT_DOC => {
                if let Some(group) = &mut self.group {
                    group.documents = true;
                }
            }
            _ => {}
        }
    }

    fn refusal(&self, text: Text<'_>, other: Option<Fault>) -> Option<Fault> {
        faults::before(Number::Details, self.close(), other)
    }

    ghost begun = { λ v m k. none_passed details_step details_start };

    ghost gone_on = { λ v m k p ss a b h s. one_passed details_step details_start ss (seg_at v m p.nth p.row p.at) a b h s };
}
