// The rows, the starts and the totals of an accepted message, written over the front of lent lists.
#![tactic(auto)]

ghost use Rattle.std.specs.Prelude.{◌≡◌, ◌≤◌, ◌<◌, length};
ghost use Rattle.lent.specs.Lent.{lent, SameLists};
ghost use Rattle.listing.specs.Listing.{lists_after};
ghost use Rattle.listing.specs.Forms.Steps.{SegmentPut, TotalPut};

use lent::Lists;
use segments::Text;
use table::Row;

// The row and the start of a segment, written after those of `k` others. Here and in `put_total` a list and the place in it go apart: `SegmentPut` and
// `TotalPut` speak of each.
#[tactic(auto, using(crate::proofs::Segments::segment_put))]
fn put_segment(at: usize, row: usize, k: usize, rows: &mut [u16], starts: &mut [u32])
    requires k_in_bounds { k < length rows.old }
    requires k_in_bounds_2 { k < length starts.old }
    ensures { SegmentPut at row k rows.old rows.new starts.old starts.new }
{
    rows[k] = lent::low16(row);
    starts[k] = lent::low32(at);
}

// The total of an order, if the segment at `at` is its MOA and fewer than `orders` are written, `n` so far; gives how many are written then. An amount without the form
// counts 0.
#[tactic(auto, using(crate::proofs::Totals::total_put, crate::specs::Forms::Steps::other, crate::specs::Forms::Steps::full))]
fn put_total(
    text: Text<'_>,
    at: usize,
    row: usize,
    n: usize,
    orders: usize,
    totals: &mut [u64],
) -> usize
    requires { orders ≤ length totals.old }
    ensures { TotalPut text.entry.service text.entry.bytes.now at row n orders totals.old totals.new result }
{
    if row == paymul::ORDER_MOA && n < orders {
        totals[n] = amounts::worth_at(text, at);
        return n + 1;
    }
    n
}

// The row on a table and the start of each of the first `segments` segments, and the total of each of the first `orders` orders among them; nothing where a list is too short.
// Over the segments: `lists_after` takes the starts and the rows from lists of their own, and `Places` is inside rule.
#[tactic(auto, using(crate::specs::Laws::ListingLaws::short_rows, crate::specs::Laws::ListingLaws::short_starts, crate::specs::Laws::ListingLaws::short_totals, crate::proofs::Segments::listing_room_totals))]
pub fn put_lists(text: Text<'_>, t: &[Row], segments: usize, orders: usize, lists: &mut Lists<'_>)
    ensures after { lent lists.new ≡ lists_after t.now text.entry.service text.entry.bytes.now segments orders (lent lists.old) }
    ensures same_references { SameLists lists.old lists.new }
{
    if lists.rows.len() < segments || lists.starts.len() < segments || lists.totals.len() < orders {
        return;
    }
    let mut row: usize = 0;
    let mut n: usize = 0;
    for (k, piece) in text.segments(0).take(segments).enumerate() {
        let at = piece.start();
        row = chart::next_row(t, row, values::code_at(text, at));
        put_segment(at, row, k, lists.rows, lists.starts);
        n = put_total(text, at, row, n, orders, lists.totals);
    }
}
