// The parties of an order (level B) and of a payment (level C): rule 27.
#![tactic(auto)]

ghost use Rattle.std.specs.Prelude.{ℕ, ◌≡◌, false, eqb, [], ◌∷◌, None};
ghost use Rattle.faults.specs.Firsts.{lesser};
ghost use Rattle.values.specs.Numbers.{value_in};
ghost use Rattle.values.specs.Forms.Values.{code_of};
ghost use Rattle.message.specs.Segs.{seg_at};
ghost use Rattle.message.specs.Rules.{order_holds, payment_holds, rule27};
ghost use Rattle.message.specs.Forms.Run.{run, place_if};
ghost use Rattle.message.specs.Forms.Counts.{more_if};
ghost use Rattle.rule.specs.Laws.RunLaws.{none_passed, one_passed};
ghost use Rattle.parties.specs.Forms.Steps.{name_in, level_of, with_account, with_parties, payment_comes, parties_start, parties_step, parties_close, with_payment, ended};

use faults::Fault;
use numbers::Number;
use rule::{Counts, Place, Rule};
use segments::Text;
use values::codes;

// The parties of an order or a payment: its LIN or SEQ, if there is one, how many accounts, holders and others it has (two stands for more), and whether an
// account has a name. Of an order these are FII+OR, NAD+PL and NAD+OY, of a payment FII+BF, NAD+PE and NAD+BE. A level and no Option of one: an FII counts before
// its LIN or SEQ too, as the definition `level_inner` says. Numbers and no enum of none, one and more: the definitions `order_holds` and `payment_holds` compare them.
#[derive(Clone, Copy, Debug, PartialEq, Eq)]
pub struct LevelParties {
    pub head: Option<usize>,
    pub account: u8,
    pub named: bool,
    pub holder: u8,
    pub other: u8,
}

// The order and the payment at hand, and the first of each that did not hold.
#[derive(Clone, Copy, Debug, PartialEq, Eq)]
pub struct Parties {
    pub order: LevelParties,
    pub orders: Option<usize>,
    pub payment: LevelParties,
    pub payments: Option<usize>,
}

// None, one, or more: one more, if there is.
#[tactic(auto, using(crate::specs::Laws::StepLaws::more_one))]
fn more_if(t: bool, n: u8) -> u8
    ensures { result ≡ more_if t n }
{
    if t {
        return n.saturating_add(1).min(2);
    }
    n
}

// Whether the FII at `at` gives a holder name.
#[tactic(auto, using(crate::specs::Laws::StepLaws::name_first, crate::specs::Laws::StepLaws::name_second))]
fn has_name(text: Text<'_>, at: usize) -> bool
    ensures { result ≡ name_in (value_in text.entry.service at text.entry.bytes.now) }
{
    values::code_in(text, at, 2, 1) != codes::EMPTY
        || values::code_in(text, at, 2, 2) != codes::EMPTY
}

impl LevelParties {
    // Those of an order or a payment that begins.
    fn new(head: Option<usize>) -> LevelParties
        ensures { result ≡ level_of head 0 false 0 0 }
    {
        LevelParties {
            head,
            account: 0,
            named: false,
            holder: 0,
            other: 0,
        }
    }

    // An FII, which is an account if it has this qualifier.
    #[tactic(auto, using(crate::specs::Laws::StepLaws::or_if))]
    fn fii(&mut self, text: Text<'_>, at: usize, account: u64)
        ensures { self.new ≡ with_account self.old (eqb (code_of (value_in text.entry.service at text.entry.bytes.now 1 0)) account) (value_in text.entry.service at text.entry.bytes.now) }
    {
        let is_account = values::code_in(text, at, 1, 0) == account;
        self.account = more_if(is_account, self.account);
        self.named = self.named || is_account && has_name(text, at);
    }

    // A NAD, which is a holder or another party if it has their qualifier.
    fn nad(&mut self, text: Text<'_>, at: usize, holder: u64, other: u64)
        ensures { self.new ≡ with_parties self.old (eqb (code_of (value_in text.entry.service at text.entry.bytes.now 1 0)) holder) (eqb (code_of (value_in text.entry.service at text.entry.bytes.now 1 0)) other) }
    {
        let code = values::code_in(text, at, 1, 0);
        self.holder = more_if(code == holder, self.holder);
        self.other = more_if(code == other, self.other);
    }

    // An order: exactly one OR, at most one PL and one OY, and a name exactly if there is no PL.
    #[tactic(auto, unfolding(message::specs::Rules::order_holds))]
    fn order_holds(self) -> bool
        ensures { result ≡ order_holds self.account self.named self.holder self.other }
    {
        self.account == 1 && self.holder <= 1 && self.other <= 1 && self.named == (self.holder == 0)
    }

    // A payment: at most one each of BF, PE and BE. Without BF, BE and no PE; with BF, a name exactly if there is no PE.
    #[tactic(auto, unfolding(message::specs::Rules::payment_holds))]
    fn payment_holds(self) -> bool
        ensures { result ≡ payment_holds self.account self.named self.holder self.other }
    {
        if self.account > 1 || self.holder > 1 || self.other > 1 {
            return false;
        }
        if self.account == 0 {
            return self.other == 1 && self.holder == 0;
        }
        self.named == (self.holder == 0)
    }

    // Its LIN or SEQ, if it is one whose parties do not hold.
    #[tactic(auto, using(crate::specs::Laws::StepLaws::fault_none, crate::specs::Laws::StepLaws::fault_at))]
    fn fault(self, holds: bool) -> Option<usize>
        ensures { result ≡ place_if self.head holds }
    {
        if holds {
            return None;
        }
        self.head
    }
}

impl Parties {
    // The end of a payment, and the next one, if there is one.
    #[tactic(auto, unfolding(crate::specs::Forms::Steps::payment_comes))]
    fn next_payment(&mut self, seq: Option<usize>)
        ensures { self.new ≡ with_payment self.old (level_of seq 0 false 0 0) (lesser self.old.payments (payment_comes self.old.payment)) }
    {
        let fault = self.payment.fault(self.payment.payment_holds());
        self.payments = faults::earlier(self.payments, fault);
        self.payment = LevelParties::new(seq);
    }

    // The end of an order and of its last payment, and the next order, if there is one.
    #[tactic(auto, unfolding(crate::specs::Forms::Steps::order_comes))]
    fn next_order(&mut self, lin: Option<usize>)
        ensures { self.new ≡ ended self.old lin }
    {
        self.next_payment(None);
        let fault = self.order.fault(self.order.order_holds());
        self.orders = faults::earlier(self.orders, fault);
        self.order = LevelParties::new(lin);
    }

    // The first LIN or SEQ whose parties do not hold, with the order and the payment at hand ended. Each rule ends its own parts: a generic `close` would take both
    // steps as arguments.
    #[tactic(auto, using(crate::specs::Laws::StepLaws::closed))]
    pub fn close(mut self) -> Option<usize>
        ensures { result ≡ parties_close self }
    {
        self.next_order(None);
        faults::earlier(self.orders, self.payments)
    }
}

#[tactic(auto, using(crate::specs::Laws::Agree::agree27, crate::specs::Laws::StepLaws::step_lin, crate::specs::Laws::StepLaws::step_seq, crate::specs::Laws::StepLaws::step_order_fii, crate::specs::Laws::StepLaws::step_order_nad, crate::specs::Laws::StepLaws::step_payment_fii, crate::specs::Laws::StepLaws::step_payment_nad, crate::specs::Laws::StepLaws::step_other), unfolding(rule::specs::Refusals::by_rules))]
impl Rule for Parties {
    ghost rules = { λ k ss. (27, rule27 ss) ∷ [] };

    ghost first = { parties_start };

    ghost Step = { λ v m k p a b. b ≡ parties_step a (seg_at v m p.nth p.row p.at) };

    ghost After = { λ v m k ss st. st ≡ run parties_step parties_start ss };

    fn start() -> Self {
        Parties {
            order: LevelParties::new(None),
            orders: None,
            payment: LevelParties::new(None),
            payments: None,
        }
    }

    fn step(&mut self, text: Text<'_>, counts: Counts, place: Place) {
        match place.row {
            paymul::LIN => self.next_order(Some(place.nth)),
            paymul::SEQ => self.next_payment(Some(place.nth)),
            paymul::ORDER_FII => self.order.fii(text, place.at, codes::OR),
            paymul::ORDER_NAD => self.order.nad(text, place.at, codes::PL, codes::OY),
            paymul::PAYMENT_FII => self.payment.fii(text, place.at, codes::BF),
            paymul::PAYMENT_NAD => self.payment.nad(text, place.at, codes::PE, codes::BE),
            _ => {}
        }
    }

    fn refusal(&self, text: Text<'_>, other: Option<Fault>) -> Option<Fault> {
        faults::before(Number::Parties, self.close(), other)
    }

    ghost begun = { λ v m k. none_passed parties_step parties_start };

    ghost gone_on = { λ v m k p ss a b h s. one_passed parties_step parties_start ss (seg_at v m p.nth p.row p.at) a b h s };
}
