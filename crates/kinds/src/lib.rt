// The kinds of messages that are read, each on a chart of its own.
#![tactic(auto)]

ghost use Rattle.std.specs.Prelude.{◌≡◌};
ghost use Rattle.kinds.specs.Kinds.{table_of};

use table::Row;

// An enum and no trait: each kind is an arm where they differ, and the check asks for all of them.
#[derive(Clone, Copy, Debug, PartialEq, Eq)]
pub enum Kind {
    // The order to the bank: what to pay, and from which fund.
    Paymul,
    // The bank's advice: what it has debited, and for what.
    Debmul,
}

// The table of a kind's chart.
pub fn table(kind: Kind) -> &'static [Row]
    ensures { result.now ≡ table_of kind }
{
    match kind {
        Kind::Paymul => paymul::chart(),
        Kind::Debmul => debmul::chart(),
    }
}
