// The amounts of an order and of its payments: form, qualifier, currency, exchange and total, rules 22 to 26.
#![tactic(auto)]

ghost use Rattle.std.specs.Prelude.{◌≡◌, not, ◌&&◌, ◌||◌, [], ◌∷◌};
ghost use Rattle.values.specs.Forms.Values.{amount_of};
ghost use Rattle.values.specs.Numbers.{value_in};
ghost use Rattle.values.specs.Text.{same_list, says};
ghost use Rattle.message.specs.Segs.{seg_at};
ghost use Rattle.message.specs.Rules.{is_of, worth, capitals, first_holds, second_holds, bases_hold, cux_holds, rule22, rule23, rule24, rule25, rule26};
ghost use Rattle.message.specs.Forms.Run.{run};
ghost use Rattle.rule.specs.Laws.RunLaws.{none_passed, one_passed};
ghost use Rattle.amounts.specs.Forms.Steps.{sums_of, sums_idle, sums_start, sums_step, amounts_close, own_of, own_at, base_by, bases_by, held_by, order_ended, with_form, exchanged, paid};

use faults::Fault;
use numbers::Number;
use rule::{Counts, Place, Rule};
use segments::Text;
use values::codes;

// An order from its own MOA on: the MOA's number and where it begins, whether a CUX came, and the sum of its payments.
#[derive(Clone, Copy, Debug, PartialEq, Eq)]
pub struct Order {
    pub nth: usize,
    pub at: usize,
    pub exchanged: bool,
    pub sum: u64,
}

// The order at hand, if its MOA came, and the first at fault under each rule.
#[derive(Clone, Copy, Debug, PartialEq, Eq)]
pub struct Amounts {
    pub order: Option<Order>,
    pub first22: Option<usize>,
    pub first23: Option<usize>,
    pub first24: Option<usize>,
    pub first25: Option<usize>,
    pub first26: Option<usize>,
}

// What an order's own MOA must hold at the order's end: its qualifier, its currency, an exchange if it needs one, and the total of its payments.
#[derive(Clone, Copy, Debug, PartialEq, Eq)]
struct Holds {
    qualifier: bool,
    currency: bool,
    exchange: bool,
    total: bool,
}

// An amount as a number. One without the form counts 0. Not `unwrap_or` at its two places: its clause speaks of `worth`, as the definitions of the totals do.
#[tactic(auto, using(crate::specs::Laws::StepLaws::worth_some, crate::specs::Laws::StepLaws::worth_none))]
fn worth_of(amount: Option<u64>) -> u64
    ensures { result ≡ worth amount }
{
    amount.unwrap_or(0)
}

// The amount of the MOA at `at`. One without the form counts 0.
pub fn worth_at(text: Text<'_>, at: usize) -> u64
    ensures { result ≡ worth (amount_of (value_in text.entry.service at text.entry.bytes.now 1 1)) }
{
    worth_of(values::amount_in(text, at, 1, 1))
}

// Whether the qualifier of the MOA at `at` is 57.
#[tactic(auto, using(crate::specs::Laws::StepLaws::exchange_by))]
fn is_exchange(text: Text<'_>, at: usize) -> bool
    ensures { result ≡ says (value_in text.entry.service at text.entry.bytes.now 1 0) "57" }
{
    values::code_in(text, at, 1, 0) == codes::FIFTY_SEVEN
}

// Whether it is 9 or 57.
#[tactic(auto, using(crate::specs::Laws::StepLaws::nine_so, crate::specs::Laws::StepLaws::nine_not))]
fn has_qualifier(text: Text<'_>, at: usize) -> bool
    ensures { result ≡ says (value_in text.entry.service at text.entry.bytes.now 1 0) "9" || says (value_in text.entry.service at text.entry.bytes.now 1 0) "57" }
{
    let code = values::code_in(text, at, 1, 0);
    code == codes::NINE || code == codes::FIFTY_SEVEN
}

// Whether the currency of the MOA at `at` is three capitals.
fn has_currency(text: Text<'_>, at: usize) -> bool
    ensures { result ≡ capitals (value_in text.entry.service at text.entry.bytes.now 1 2) }
{
    values::is_capitals(values::code_in(text, at, 1, 2))
}

// A rate base is 1, 100 or 1000.
#[tactic(auto, unfolding(crate::specs::Forms::Steps::base_by))]
fn is_base(code: u64) -> bool
    ensures { result ≡ base_by code }
{
    code == codes::ONE || code == codes::HUNDRED || code == codes::THOUSAND
}

// At most one of the two bases is given, and only with a rate.
#[tactic(auto, unfolding(crate::specs::Forms::Steps::bases_by))]
fn bases_hold(a: u64, b: u64, rate: u64) -> bool
    ensures { result ≡ bases_by a b rate }
{
    (a == codes::EMPTY && b == codes::EMPTY)
        || (rate != codes::EMPTY
            && ((a == codes::EMPTY && is_base(b)) || (is_base(a) && b == codes::EMPTY)))
}

// A CUX in a text: where it begins, and where its order's MOA does.
#[derive(Clone, Copy)]
struct Exchange<'a> {
    text: Text<'a>,
    at: usize,
    own: usize,
}

impl<'a> Exchange<'a> {
    // Whether it names the order's currency first.
    #[tactic(auto, using(crate::specs::Laws::StepLaws::own_so, crate::specs::Laws::StepLaws::own_not))]
    fn names_own(self) -> bool
        ensures { result ≡ first_holds (value_in self.entry.text.service self.entry.own self.entry.text.bytes.now 1 2) (value_in self.entry.text.service self.entry.at self.entry.text.bytes.now) }
    {
        values::code_in(self.text, self.at, 1, 0) == codes::TWO
            && values::same_in(self.text, self.at, 1, 1, self.own, 1, 2)
    }

    // Whether its second currency is three capitals that differ from the order's.
    fn is_other(self) -> bool
        ensures { result ≡ capitals (value_in self.entry.text.service self.entry.at self.entry.text.bytes.now 2 1) && not (same_list (value_in self.entry.text.service self.entry.at self.entry.text.bytes.now 2 1) (value_in self.entry.text.service self.entry.own self.entry.text.bytes.now 1 2)) }
    {
        let same = values::same_in(self.text, self.at, 2, 1, self.own, 1, 2);
        values::is_capitals(values::code_in(self.text, self.at, 2, 1)) && !same
    }

    // Whether it names another currency then.
    #[tactic(auto, using(crate::specs::Laws::StepLaws::other_so, crate::specs::Laws::StepLaws::other_not))]
    fn names_other(self) -> bool
        ensures { result ≡ second_holds (value_in self.entry.text.service self.entry.own self.entry.text.bytes.now 1 2) (value_in self.entry.text.service self.entry.at self.entry.text.bytes.now) }
    {
        values::code_in(self.text, self.at, 2, 0) == codes::THREE && self.is_other()
    }

    // Whether its rate bases go with its rate.
    #[tactic(auto, using(crate::specs::Laws::StepLaws::rates_by))]
    fn rates_hold(self) -> bool
        ensures { result ≡ bases_hold (value_in self.entry.text.service self.entry.at self.entry.text.bytes.now 1 3) (value_in self.entry.text.service self.entry.at self.entry.text.bytes.now 2 3) (value_in self.entry.text.service self.entry.at self.entry.text.bytes.now 3 0) }
    {
        let first = values::code_in(self.text, self.at, 1, 3);
        let second = values::code_in(self.text, self.at, 2, 3);
        bases_hold(first, second, values::code_in(self.text, self.at, 3, 0))
    }

    // Whether it may stand in the order, and holds.
    fn holds(self) -> bool
        ensures { result ≡ says (value_in self.entry.text.service self.entry.own self.entry.text.bytes.now 1 0) "57" && cux_holds (value_in self.entry.text.service self.entry.own self.entry.text.bytes.now 1 2) (value_in self.entry.text.service self.entry.at self.entry.text.bytes.now) }
    {
        is_exchange(self.text, self.own)
            && self.names_own()
            && self.names_other()
            && self.rates_hold()
    }
}

impl Order {
    // What of this holds of the order.
    fn holds(self, text: Text<'_>) -> Holds
        ensures { result ≡ held_by text.entry.service text.entry.bytes.now self }
    {
        Holds {
            qualifier: has_qualifier(text, self.at),
            currency: has_currency(text, self.at),
            exchange: !is_exchange(text, self.at) || self.exchanged,
            total: worth_at(text, self.at) == self.sum,
        }
    }
}

impl Amounts {
    // The end of the order at hand, and the next one, if its MOA came.
    #[tactic(auto, using(faults::specs::Laws::FirstsLaws::lesser_last))]
    fn end(&mut self, text: Text<'_>, next: Option<Order>)
        ensures { self.new ≡ order_ended text.entry.service text.entry.bytes.now self.old next }
    {
        if let Some(order) = self.order {
            let holds = order.holds(text);
            self.first23 = faults::keep(self.first23, holds.qualifier, order.nth);
            self.first24 = faults::keep(self.first24, holds.currency, order.nth);
            self.first25 = faults::keep(self.first25, holds.exchange, order.nth);
            self.first26 = faults::keep(self.first26, holds.total, order.nth);
        }
        self.order = next;
    }

    // The first places, with the order at hand ended.
    pub fn close(mut self, text: Text<'_>) -> Amounts
        ensures { result ≡ amounts_close text.entry.service text.entry.bytes.now self }
    {
        self.end(text, None);
        self
    }

    // The form of the amount of a MOA, the nth segment.
    fn formed(&mut self, amount: Option<u64>, nth: usize)
        ensures { self.new ≡ with_form self.old (is_of amount) nth }
    {
        self.first22 = faults::keep(self.first22, amount.is_some(), nth);
    }

    // An order's CUX.
    fn exchange(&mut self, text: Text<'_>, place: Place)
        ensures { self.new ≡ exchanged text.entry.service text.entry.bytes.now self.old place.at place.nth self.old.order }
    {
        if let Some(order) = &mut self.order {
            order.exchanged = true;
            let cux = Exchange {
                text,
                at: place.at,
                own: order.at,
            };
            self.first25 = faults::keep(self.first25, cux.holds(), place.nth);
        }
    }

    // The sum, qualifier and currency of a payment's MOA of this amount. No amount reaches the end of the range, so a sum may stop there.
    fn paid(&mut self, text: Text<'_>, place: Place, amount: Option<u64>)
        ensures { self.new ≡ paid text.entry.service text.entry.bytes.now self.old place.at place.nth amount self.old.order }
    {
        if let Some(order) = &mut self.order {
            order.sum = order.sum.saturating_add(worth_of(amount));
            let qualifier = values::same_in(text, place.at, 1, 0, order.at, 1, 0);
            let currency = values::same_in(text, place.at, 1, 2, order.at, 1, 2);
            self.first23 = faults::keep(self.first23, qualifier, place.nth);
            self.first24 = faults::keep(self.first24, currency, place.nth);
        }
    }
}

#[tactic(auto, using(crate::specs::Laws::Agree::refused, crate::specs::Laws::StepLaws::step_lin, crate::specs::Laws::StepLaws::step_moa, crate::specs::Laws::StepLaws::step_cux, crate::specs::Laws::StepLaws::step_paid, crate::specs::Laws::StepLaws::step_other), unfolding(rule::specs::Refusals::by_rules))]
impl Rule for Amounts {
    ghost rules = { λ k ss. (22, rule22 ss) ∷ (23, rule23 ss) ∷ (24, rule24 ss) ∷ (25, rule25 ss) ∷ (26, rule26 ss) ∷ [] };

    ghost first = { sums_start };

    // Where the order's own MOA begins is kept too.
    ghost Step = { λ v m k p a b. (sums_of v m b ≡ sums_step (sums_of v m a) (seg_at v m p.nth p.row p.at)) × (own_of b ≡ own_at (own_of a) p.row p.at) };

    ghost After = { λ v m k ss st. sums_of v m st ≡ run sums_step sums_idle ss };

    fn start() -> Self {
        Amounts {
            order: None,
            first22: None,
            first23: None,
            first24: None,
            first25: None,
            first26: None,
        }
    }

    fn step(&mut self, text: Text<'_>, counts: Counts, place: Place) {
        match place.row {
            paymul::LIN => self.end(text, None),
            paymul::ORDER_MOA => {
                self.formed(values::amount_in(text, place.at, 1, 1), place.nth);
                self.end(
                    text,
                    Some(Order {
                        nth: place.nth,
                        at: place.at,
                        exchanged: false,
                        sum: 0,
                    }),
                );
            }
            paymul::ORDER_CUX => self.exchange(text, place),
            paymul::PAYMENT_MOA => {
                let amount = values::amount_in(text, place.at, 1, 1);
                self.formed(amount, place.nth);
                self.paid(text, place, amount);
            }
            _ => {}
        }
    }

    fn refusal(&self, text: Text<'_>, other: Option<Fault>) -> Option<Fault> {
        let a = self.close(text);
        let from26 = faults::before(Number::Total, a.first26, other);
        let from25 = faults::before(Number::Exchange, a.first25, from26);
        let from24 = faults::before(Number::Currency, a.first24, from25);
        let from23 = faults::before(Number::Qualifier, a.first23, from24);
        faults::before(Number::Amount, a.first22, from23)
    }

    ghost begun = { λ v m k. none_passed sums_step sums_idle };

    ghost gone_on = { λ v m k p ss a b h s. one_passed sums_step sums_idle ss (seg_at v m p.nth p.row p.at) (sums_of v m a) (sums_of v m b) h s.0 };
}
