// Placing a message's segments on a chart.
#![tactic(auto)]

ghost use Rattle.std.specs.Prelude.{◌≡◌, ◌+◌, ◌<◌, ltb, length};
ghost use Rattle.chart.specs.Forms.Machine.{owed, takes as taken};
ghost use Rattle.chart.specs.Forms.Placing.{OnceDone, RowsDone, TurnIs};
ghost use Rattle.chart.specs.Forms.Cursor.{CursorIs, Stepped};
ghost use Rattle.chart.specs.Answer.{Answers};
ghost use Rattle.chart.specs.Forms.Next.{next_of, next_row};
ghost use Rattle.chart.specs.Forms.Columns.{tag_of, parent_of, end_of, req_of, most_of, first_of, RowIs};
ghost use Rattle.chart.specs.Forms.Sound.{Sound};
ghost use Rattle.kinds.specs.Kinds.{table_of};

use kinds::Kind;
use segments::{Segment, Text};
use table::Row;

// A place in a message: where a segment begins, and its tag as a code; past the last segment the tag is 0, as the definition `tag_at` says, and no Option.
#[derive(Clone, Copy, Debug, PartialEq, Eq)]
pub struct Cursor {
    pub at: usize,
    pub tag: u64,
}

// A row takes a segment, or must come before it, or is passed.
#[derive(Clone, Copy, Debug, PartialEq, Eq)]
enum Turn {
    Takes,
    Owes,
    Passes,
}

// The cursor at a segment that begins at `at`.
#[tactic(auto, using(crate::specs::Laws::CursorLaws::cursor_here, crate::specs::Laws::CursorLaws::cursor_past))]
pub fn cursor_at(text: Text<'_>, at: usize) -> Cursor
    ensures { CursorIs text.entry.service text.entry.bytes.now at result }
{
    if at < text.bytes.len() {
        let tag = values::code_at(text, at);
        return Cursor { at, tag };
    }
    Cursor { at, tag: 0 }
}

// The cursor one segment further, or past the last one.
#[tactic(auto, using(crate::specs::Laws::CursorLaws::stepped_next, crate::specs::Laws::CursorLaws::stepped_end, crate::specs::Laws::CursorLaws::stepped_nothing))]
fn after(text: &Text<'_>, c: Cursor) -> Cursor
    ensures { Stepped text.now.service text.now.bytes.now c result }
{
    match segments::segment_at(*text, c.at) {
        Segment::Finished(_, next) => cursor_at(*text, next),
        Segment::Unfinished => Cursor {
            at: text.bytes.len(),
            tag: 0,
        },
        Segment::Nothing => c,
    }
}

// The same of a message by value: `after` is lent it, so that a level of the recursion keeps no copy.
pub fn step(text: Text<'_>, c: Cursor) -> Cursor
    ensures { Stepped text.entry.service text.entry.bytes.now c result }
{
    after(&text, c)
}

// The first row past those inside a row. That `r` is a row stands as a clause and in no type: `r` changes with each turn of a loop, and a type would be built anew.
fn end_of(t: &[Row], r: usize) -> usize
    requires { r < length t.now }
    ensures { result ≡ end_of t.now r }
{
    usize::from(t[r].end)
}

// Whether a row has rows inside it.
fn is_group(t: &[Row], r: usize) -> bool
    requires { r < length t.now }
    ensures { result ≡ ltb (r + 1) (end_of t.now r) }
{
    r + 1 < end_of(t, r)
}

// The row of the first segment of an occurrence of a row.
#[tactic(auto, unfolding(crate::specs::Forms::Columns::first_of))]
fn first_of(t: &[Row], r: usize) -> usize
    requires { r < length t.now }
    ensures { result ≡ first_of t.now r }
{
    if is_group(t, r) { r + 1 } else { r }
}

// Whether a row is required and has not come.
#[tactic(auto, unfolding(crate::specs::Forms::Machine::owed, crate::specs::Forms::Columns::req_of))]
fn owes(t: &[Row], r: usize, times: usize) -> bool
    requires { r < length t.now }
    ensures { result ≡ owed (req_of t.now r) times }
{
    t[r].is_required() && times == 0
}

// Whether a segment of the tag stands at the cursor and the row may come once more.
#[tactic(auto, unfolding(crate::specs::Forms::Machine::takes))]
fn takes(c: Cursor, tag: u64, times: usize, most: usize) -> bool
    ensures { result ≡ taken c.tag times tag most }
{
    c.tag == tag && times < most
}

// What a row that has come `times` times makes of the segment at the cursor.
#[tactic(auto, unfolding(crate::specs::Forms::Columns::most_of), using(crate::proofs::Walk::turn_takes, crate::proofs::Walk::turn_not))]
fn turn_of(t: &[Row], r: usize, times: usize, c: Cursor) -> Turn
    requires { r < length t.now }
    ensures { TurnIs t.now r times c result }
{
    if takes(c, t[r].code(), times, t[r].most()) {
        return Turn::Takes;
    }
    if owes(t, r, times) {
        return Turn::Owes;
    }
    Turn::Passes
}

// The rows inside the row `g`, but the first: each as often as it comes. An error is where a segment begins with which no message goes on. Message and table are lent
// on as they came, so that a level of the recursion keeps no copy of where they lie. The loop is over no range: `r` goes to the next row, or stays for one
// occurrence more.
#[tactic(auto, using(crate::proofs::Nest::first_fits, crate::proofs::Walk::rows_start, crate::proofs::Walk::rows_done, crate::proofs::Walk::rows_it, crate::proofs::Walk::rows_small, crate::proofs::Walk::rows_tag, crate::proofs::Walk::rows_fits, crate::proofs::Walk::rows_again, crate::proofs::Walk::rows_leaf, crate::proofs::Walk::rows_short, crate::proofs::Walk::rows_next, crate::proofs::Walk::rows_more, crate::proofs::Walk::rows_less, crate::proofs::Walk::rows_falls, crate::proofs::Walk::rows_stop))]
#[cycle(place_occurrence_place_rows)]
fn place_rows(text: &Text<'_>, t: &&[Row], g: usize, from: Cursor) -> Result<Cursor, usize>
    requires { RowIs t.now.now g }
    ensures { RowsDone t.now.now text.now.service text.now.bytes.now (first_of t.now.now g + 1) (end_of t.now.now g) from result }
{
    let end = end_of(*t, g);
    let mut r = first_of(*t, g) + 1;
    let mut times: usize = 0;
    let mut c = from;
    while r < end {
        match turn_of(*t, r, times, c) {
            Turn::Takes => {
                times += 1;
                if is_group(*t, r) {
                    c = place_occurrence(text, t, r, c)?;
                } else {
                    c = after(text, c);
                }
            }
            Turn::Owes => {
                return Err(c.at);
            }
            Turn::Passes => {
                r = end_of(*t, r);
                times = 0;
            }
        }
    }
    Ok(c)
}

// One occurrence of the row `r`: its first segment, which stands at the cursor, and then the rows inside it.
#[tactic(auto, using(crate::proofs::Walk::once_done))]
#[cycle(place_occurrence_place_rows)]
fn place_occurrence(text: &Text<'_>, t: &&[Row], r: usize, from: Cursor) -> Result<Cursor, usize>
    requires row_is { RowIs t.now.now r }
    requires tag_value { from.tag ≡ tag_of t.now.now r }
    ensures { OnceDone t.now.now text.now.service text.now.bytes.now r from result }
{
    let c = after(text, from);
    place_rows(text, t, r, c)
}

// All rows of the table: the message's own, once.
#[tactic(auto, using(crate::proofs::Walk::all_small, crate::proofs::Walk::all_row, crate::proofs::Walk::all_tag, crate::proofs::Walk::all_done, crate::proofs::Walk::all_stuck))]
fn place_all(text: &Text<'_>, t: &[Row], from: Cursor) -> Result<Cursor, usize>
    requires { Sound t.now }
    ensures { RowsDone t.now text.now.service text.now.bytes.now 0 (length t.now) from result }
{
    if from.tag == t[0].code() {
        return place_occurrence(text, &t, 0, from);
    }
    Err(from.at)
}

// The same of the chart of a kind of message.
#[tactic(auto, using(crate::proofs::Tables::sound_as, crate::proofs::Tables::done_as))]
fn place_kind(text: &Text<'_>, kind: Kind, from: Cursor) -> Result<Cursor, usize>
    ensures { RowsDone (table_of kind) text.now.service text.now.bytes.now 0 (length (table_of kind)) from result }
{
    place_all(text, kinds::table(kind), from)
}

// Whether the message's segments can be placed on the chart of a kind; an error is where the first segment begins with which no message does.
#[tactic(auto, using(crate::proofs::Tables::sound, crate::proofs::Whole::whole_over, crate::proofs::Whole::whole_placed, crate::proofs::Whole::whole_stuck))]
pub fn place(text: Text<'_>, kind: Kind) -> Result<(), usize>
    ensures { Answers (table_of kind) text.entry.service text.entry.bytes.now result }
{
    let c = cursor_at(text, 0);
    let d = place_kind(&text, kind, c)?;
    if d.at < text.bytes.len() {
        return Err(d.at);
    }
    Ok(())
}

// The row to try after a row: the one beside it, or after the last of a group the group again.
#[tactic(auto, unfolding(crate::specs::Forms::Next::next_of, crate::specs::Forms::Columns::parent_of))]
fn next_of(t: &[Row], r: usize) -> usize
    requires { r < length t.now }
    ensures { result ≡ next_of t.now r }
{
    let end = end_of(t, r);
    if end < t.len() && t[end].parent == t[r].parent {
        return end;
    }
    usize::from(t[r].parent)
}

// The row of a segment with the tag, where the segment before it stands at the row `prev` (0 before the first); the number of rows where there is none, and no
// Option, since the definition `rows_of` goes on from that number. On any table at most as many rows are tried as it has.
#[tactic(auto, using(crate::proofs::Stream::find_start, crate::proofs::Stream::find_past, crate::proofs::Stream::find_none, crate::proofs::Stream::find_here, crate::proofs::Stream::find_on))]
pub fn next_row(t: &[Row], prev: usize, tag: u64) -> usize
    ensures { result ≡ next_row t.now prev tag }
{
    let mut r = prev;
    for _ in 0..t.len() {
        if t.len() <= r {
            return t.len();
        }
        if t[r].code() == tag {
            return first_of(t, r);
        }
        r = next_of(t, r);
    }
    t.len()
}
