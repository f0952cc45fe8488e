// What must hold of a placed order, and the rule of the lowest number that is broken.
#![tactic(auto)]

ghost use Rattle.std.specs.Prelude.{◌≡◌};
ghost use Rattle.message.specs.Rules.{paymul_of};
ghost use Rattle.faults.specs.Firsts.{told_of};
ghost use Rattle.message.specs.Faults.{tell_all, least_of};
ghost use Rattle.message.specs.Placed.{placed_on};

use amounts::Amounts;
use details::Details;
use faults::Fault;
use numbering::{Control, LineNumbers, SequenceNumbers};
use parties::Parties;
use rule::Counts;
use segments::Text;
use table::Row;
use trailer::Trailer;

// In the order of their numbers: 17 and 18, 20, 21, 22 to 26, 27, 28, 29.
type Rules = (
    Trailer<{ paymul::UNT }>,
    (
        LineNumbers<{ paymul::LIN }>,
        (SequenceNumbers, (Amounts, (Parties, (Details, Control)))),
    ),
);

// The rule of the lowest number that is broken, and the first segment under it, in a message of so many segments and LIN segments on a table.
pub fn judge(text: Text<'_>, t: &[Row], segments: u64, orders: u64) -> Option<Fault>
    ensures { told_of result ≡ least_of (tell_all (paymul_of segments orders (placed_on t.now text.entry.service text.entry.bytes.now))) }
{
    rule::judge::<Rules>(text, t, Counts { segments, orders })
}
