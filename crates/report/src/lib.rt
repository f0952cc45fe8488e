// One message judged: refused with the lowest number that applies and its first place, or accepted with its lists written.
#![tactic(auto)]

ghost use Rattle.std.specs.Prelude.{◌≡◌, ◌+◌, ◌%◌, ◌&&◌, leb, length, Some};
ghost use Rattle.lent.specs.Lent.{lent, SameLists};
ghost use Rattle.service.specs.Service.{fitting};
ghost use Rattle.kinds.specs.Kinds.{table_of};
ghost use Rattle.message.specs.Kinds.{means};
ghost use Rattle.message.specs.Placed.{placed_on};
ghost use Rattle.faults.specs.Firsts.{told_of};
ghost use Rattle.message.specs.Faults.{tell_all, least_of};
ghost use Rattle.report.specs.Reported.{Reported};
ghost use Rattle.report.specs.Judged.{Judged};
ghost use Rattle.report.specs.Forms.Judging.{room_by, JudgedIn, lists_of, lists_by};
ghost use Rattle.report.specs.Forms.Checks.{ends_with, kind_at, typed, headed_at, outright, early_fault, Begun, misfit_at, Misfit, Late, listed_orders, byte_refusal, start_by, refusal_at};

use faults::Fault;
use interchange::Refusal;
use kinds::Kind;
use lent::Lists;
use numbers::Number;
use segments::{Segment, Text};
use tally::Tally;
use values::codes;

#[derive(Clone, Copy, Debug, PartialEq, Eq)]
pub struct Counts {
    pub segments: usize,
    pub orders: usize,
    pub payments: usize,
}

// How long lent lists are.
#[derive(Clone, Copy, Debug, PartialEq, Eq)]
struct Room {
    rows: usize,
    starts: usize,
    totals: usize,
}

// 1 for too many bytes, 2 for characters that are not fit.
#[tactic(auto, using(crate::specs::Laws::ChecksLaws::outright_long, crate::specs::Laws::ChecksLaws::outright_fit, crate::specs::Laws::ChecksLaws::outright_unfit))]
fn refused_outright(text: Text<'_>) -> Result<(), Refusal>
    ensures { result ≡ outright (leb (length text.entry.bytes.now) 1048576) (fitting text.entry.service) }
{
    if interchange::MOST < text.bytes.len() {
        return Err(interchange::refuse(Number::TooLong));
    }
    if service::fits(text.service) {
        return Ok(());
    }
    Err(interchange::refuse(Number::Characters))
}

// Whether the first UNT is there and ends the bytes.
#[tactic(auto, using(crate::specs::Laws::ChecksLaws::closed_none, crate::specs::Laws::ChecksLaws::closed_end, crate::specs::Laws::ChecksLaws::closed_unfinished, crate::specs::Laws::ChecksLaws::closed_nothing, segments::specs::Laws::SegmentsLaws::segment_end_fits))]
fn is_closed(text: Text<'_>, unt: Option<usize>) -> bool
    ensures { result ≡ ends_with text.entry.service text.entry.bytes.now unt }
{
    let Some(at) = unt else { return false };
    match segments::segment_at(text, at) {
        Segment::Finished(end, _) => end + 1 == text.bytes.len(),
        Segment::Unfinished | Segment::Nothing => false,
    }
}

// The kind whose type the UNH names; PAYMUL where it names none.
// PAYMUL and no Option: `kind_at` says so, and 12 comes before.
#[tactic(auto, using(crate::specs::Laws::ChecksLaws::kind_debmul, crate::specs::Laws::ChecksLaws::kind_paymul))]
fn kind_of(text: Text<'_>) -> Kind
    ensures { result ≡ kind_at text.entry.service text.entry.bytes.now }
{
    if values::code_in(text, 0, 2, 0) == codes::DEBMUL {
        return Kind::Debmul;
    }
    Kind::Paymul
}

// Whether the UNH's type is PAYMUL or DEBMUL, D, 96A, UN, if it is a UNH with a reference.
#[tactic(auto, using(crate::specs::Laws::ChecksLaws::typed_by))]
fn is_typed(text: Text<'_>, unh: bool) -> bool
    ensures { result ≡ typed text.entry.service text.entry.bytes.now unh }
{
    let name = values::code_in(text, 0, 2, 0);
    let version = values::code_in(text, 0, 2, 1);
    let release = values::code_in(text, 0, 2, 2);
    let agency = values::code_in(text, 0, 2, 3);
    unh && (name == codes::PAYMUL || name == codes::DEBMUL)
        && version == codes::D
        && release == codes::NINETY_SIX_A
        && agency == codes::UN
}

// Whether the first segment is a UNH with a reference of 1 to 14 bytes and the type.
#[tactic(auto, using(crate::specs::Laws::ChecksLaws::header_by))]
fn has_header(text: Text<'_>) -> bool
    ensures { result ≡ headed_at text.entry.service text.entry.bytes.now }
{
    let tag = values::code_at(text, 0);
    let referenced = interchange::is_reference(values::length_in(text, 0, 1, 0));
    is_typed(text, tag == codes::UNH && referenced)
}

// The faults that come before the lists, by number and segment: 11 to 13.
#[tactic(auto, using(crate::specs::Laws::ChecksLaws::early_unclosed, crate::specs::Laws::ChecksLaws::early_header, crate::specs::Laws::ChecksLaws::early_many, crate::specs::Laws::ChecksLaws::early_none))]
fn early_fault(text: Text<'_>, t: Tally) -> Option<Fault>
    ensures { told_of result ≡ early_fault (ends_with text.entry.service text.entry.bytes.now t.unt) (headed_at text.entry.service text.entry.bytes.now) t.segments }
{
    if !is_closed(text, t.unt) {
        return Some(Fault {
            number: Number::Unclosed,
            segment: 1,
        });
    }
    if !has_header(text) {
        return Some(Fault {
            number: Number::Type,
            segment: 1,
        });
    }
    if 9999 < t.segments {
        return Some(Fault {
            number: Number::TooMany,
            segment: 10000,
        });
    }
    None
}

// The place of a segment with `n` before it, counted from 1. No message has as many as the remainder would change; with it the sum fits for every `n`.
fn ordinal(n: usize) -> usize
    ensures { result ≡ n % 4294967295 + 1 }
{
    n % 4294967295 + 1
}

// 16, at the segment that begins at `at`.
#[tactic(auto, using(crate::specs::Laws::ChecksLaws::misfit_by))]
fn misfit_at(text: Text<'_>, at: usize) -> Fault
    ensures { told_of (Some result) ≡ misfit_at text.entry.service text.entry.bytes.now at }
{
    Fault {
        number: Number::Placement,
        segment: ordinal(tally::segments_before(text, at)),
    }
}

// What placing a message on the chart of a kind finds: nothing, or 16.
// No `err` and `map`: tried, and the proof did not close where the closure calls `misfit_at`.
#[tactic(auto, using(crate::specs::Laws::ChecksLaws::misfit_none, crate::specs::Laws::ChecksLaws::misfit_some))]
fn misfit_of(text: Text<'_>, kind: Kind) -> Option<Fault>
    ensures { Misfit kind text.entry.service text.entry.bytes.now (told_of result) }
{
    match chart::place(text, kind) {
        Ok(()) => None,
        Err(at) => Some(misfit_at(text, at)),
    }
}

// The rules of a kind on a message with a tally, its rows on the chart of the kind.
#[tactic(auto, using(crate::specs::Laws::ChecksLaws::judged_paymul, crate::specs::Laws::ChecksLaws::judged_debmul))]
fn rule_fault(text: Text<'_>, kind: Kind, t: Tally) -> Option<Fault>
    ensures { told_of result ≡ least_of (tell_all ((means kind).rules t.segments t.orders (placed_on (table_of kind) text.entry.service text.entry.bytes.now))) }
{
    let chart = kinds::table(kind);
    // `as`: `usize` has no `From` for it.
    match kind {
        Kind::Paymul => rules::judge(text, chart, t.segments as u64, t.orders as u64),
        Kind::Debmul => advice::judge(text, chart, t.segments as u64),
    }
}

// The faults that come after the lists, by number and segment: 16 to 31. `misfit` is what placing the message found.
// No `or_else`: it was tried, and nothing is known of what its closure gives; a clause there would say that of `rule_fault` over again.
#[tactic(auto, using(crate::specs::Laws::ChecksLaws::late_placed, crate::specs::Laws::ChecksLaws::late_stuck))]
fn late_fault(text: Text<'_>, kind: Kind, misfit: Option<Fault>, t: Tally) -> Option<Fault>
    requires { Misfit kind text.service text.bytes.now (told_of misfit) }
    ensures { Late kind text.entry.service text.entry.bytes.now t.segments t.orders (told_of result) }
{
    match misfit {
        None => rule_fault(text, kind, t),
        Some(_) => misfit,
    }
}

// The refusal under 10, for the byte at `at`.
#[tactic(auto, using(crate::specs::Laws::ChecksLaws::byte_by))]
fn refusal_of_byte(text: Text<'_>, at: usize) -> Refusal
    ensures { result ≡ byte_refusal text.entry.service text.entry.bytes.now at }
{
    Refusal {
        number: Number::Byte,
        segment: lent::low32(ordinal(tally::segments_before(text, at))),
        offset: lent::low32(at),
    }
}

// Where a segment begins, by its place counted from 1; 0 is no segment, as the definition `start_by` says.
#[tactic(auto, using(crate::specs::Laws::ChecksLaws::start_none, crate::specs::Laws::ChecksLaws::start_some))]
fn start_of(text: Text<'_>, segment: usize) -> usize
    ensures { result ≡ start_by text.entry.service text.entry.bytes.now segment }
{
    if segment == 0 {
        return 0;
    }
    tally::segment_start(text, segment - 1)
}

// The refusal for a fault.
#[tactic(auto, using(crate::specs::Laws::ChecksLaws::refusal_by))]
fn refusal_at(text: Text<'_>, fault: Fault) -> Refusal
    ensures { result ≡ refusal_at text.entry.service text.entry.bytes.now fault.number fault.segment }
{
    Refusal {
        number: fault.number,
        segment: lent::low32(fault.segment),
        offset: lent::low32(start_of(text, fault.segment)),
    }
}

// How many totals are written of a message of a kind with so many orders: an advice has none.
fn totals_of(kind: Kind, orders: usize) -> usize
    ensures { result ≡ listed_orders kind orders }
{
    match kind {
        Kind::Paymul => orders,
        Kind::Debmul => 0,
    }
}

// Whether lists of this room are long enough for a message of a kind.
fn fits(kind: Kind, t: Tally, room: Room) -> bool
    ensures { result ≡ leb t.segments room.rows && leb t.segments room.starts && leb (listed_orders kind t.orders) room.totals }
{
    let totals = totals_of(kind, t.orders);
    t.segments <= room.rows && t.segments <= room.starts && totals <= room.totals
}

// The report of a message of at most so many bytes, with fit characters, by what placing it found.
fn judge_placed(
    text: Text<'_>,
    kind: Kind,
    misfit: Option<Fault>,
    room: Room,
) -> Result<Counts, Refusal>
    requires begun { Begun kind text.service text.bytes.now }
    requires misfit { Misfit kind text.service text.bytes.now (told_of misfit) }
    ensures { JudgedIn text.entry.service text.entry.bytes.now (room_by room) result }
{
    let t = tally::tally_of(text);
    if let Some(at) = t.bad {
        return Err(refusal_of_byte(text, at));
    }
    if let Some(fault) = early_fault(text, t) {
        return Err(refusal_at(text, fault));
    }
    if !fits(kind, t, room) {
        return Err(interchange::refuse(Number::Lists));
    }
    if let Some(fault) = late_fault(text, kind, misfit, t) {
        return Err(refusal_at(text, fault));
    }
    // No From: a part of the tally makes counts only here.
    Ok(Counts {
        segments: t.segments,
        orders: t.orders,
        payments: t.payments,
    })
}

// The lists of a message of a kind with such counts.
#[tactic(auto, using(crate::specs::Laws::FillLaws::lists_with))]
fn put_all(text: Text<'_>, kind: Kind, c: Counts, lists: &mut Lists<'_>)
    ensures after { lent lists.new ≡ lists_of kind text.entry.service text.entry.bytes.now c (lent lists.old) }
    ensures same_references { SameLists lists.old lists.new }
{
    let orders = totals_of(kind, c.orders);
    listing::put_lists(text, kinds::table(kind), c.segments, orders, lists);
}

// The report of a message's bytes, which begin with its UNH: judged as with lists of this room; then, if it is accepted and they are long enough, those that are lent are written.
#[tactic(auto, using(crate::specs::Laws::CheckLaws::check_outright, crate::specs::Laws::FillLaws::lists_accepted))]
fn check_in(text: Text<'_>, room: Room, lists: &mut Lists<'_>) -> Result<Counts, Refusal>
    ensures judged_in { JudgedIn text.entry.service text.entry.bytes.now (room_by room) result }
    ensures lists_after { lent lists.new ≡ lists_by text.entry.service text.entry.bytes.now result (lent lists.old) }
    ensures same_references { SameLists lists.old lists.new }
{
    refused_outright(text)?;
    let kind = kind_of(text);
    let misfit = misfit_of(text, kind);
    let counts = judge_placed(text, kind, misfit, room)?;
    put_all(text, kind, counts, lists);
    Ok(counts)
}

// The report of a message's bytes as if every list were long enough: no message has more segments than bytes. None is lent, so that none is written.
// Empty lists, and no judging of its own without lists: that took more stack (docs/DECISIONS.md, "Judging is told how long the lists are").
#[tactic(auto, using(crate::specs::Laws::JudgeLaws::judge_enough))]
pub fn judge(text: Text<'_>) -> Result<Counts, Refusal>
    ensures { Judged text.entry.service text.entry.bytes.now result }
{
    let n = text.bytes.len();
    let room = Room {
        rows: n,
        starts: n,
        totals: n,
    };
    let mut none = Lists {
        rows: &mut [],
        starts: &mut [],
        totals: &mut [],
    };
    check_in(text, room, &mut none)
}

// The report of a message's bytes: judged, and its lists written if it is accepted.
#[tactic(auto, using(crate::specs::Laws::JudgeLaws::report_by))]
pub fn check(text: Text<'_>, lists: &mut Lists<'_>) -> Result<Counts, Refusal>
    ensures reported { Reported text.entry.service text.entry.bytes.now (lent lists.old) (lent lists.new) result }
    ensures same_references { SameLists lists.old lists.new }
{
    let room = Room {
        rows: lists.rows.len(),
        starts: lists.starts.len(),
        totals: lists.totals.len(),
    };
    check_in(text, room, lists)
}
