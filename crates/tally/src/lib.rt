// A message's bytes gone over once: the first byte that no value may have, its segments counted, its first UNT.
#![tactic(auto)]

ghost use Rattle.std.specs.Prelude.{◌+◌, ◌≤◌, ◌<◌, ◌≡◌, length};
ghost use Rattle.parts.specs.Parts.{is_strange};
ghost use Rattle.segments.specs.SegmentList.{segments_from, start_at};
ghost use Rattle.tally.specs.Forms.Eights.{eight_strange};
ghost use Rattle.tally.specs.Forms.Few.{Below};
ghost use Rattle.tally.specs.Places.{passed};
ghost use Rattle.tally.specs.Tallied.{bad_between, finished_one, unfinished_one, together, tally_of};

use segments::{Piece, Text};
use values::codes;

// What one reading of a message's bytes finds: the first byte that no value may have, its segments, LIN and SEQ counted, its first UNT.
#[derive(Clone, Copy, Debug, PartialEq, Eq)]
pub struct Tally {
    pub bad: Option<usize>,
    pub segments: usize,
    pub orders: usize,
    pub payments: usize,
    pub unt: Option<usize>,
}

// Whether no value may have the byte: neither 0x20 to 0x7E nor 0xA0 to 0xFF. By `|` and `&`, which have no branch.
#[tactic(auto, unfolding(parts::specs::Parts::is_strange))]
fn is_strange(b: u8) -> bool
    ensures { result ≡ is_strange b }
{
    (b < 0x20) | ((0x7e < b) & (b < 0xa0))
}

// Whether no value may have one of the eight bytes from `i` on. By `|` too, which has no branch.
fn has_strange(m: &[u8], i: usize) -> bool
    requires { i + 8 ≤ length m.now }
    ensures { result ≡ eight_strange m.now i }
{
    is_strange(m[i])
        | is_strange(m[i + 1])
        | is_strange(m[i + 2])
        | is_strange(m[i + 3])
        | is_strange(m[i + 4])
        | is_strange(m[i + 5])
        | is_strange(m[i + 6])
        | is_strange(m[i + 7])
}

// Past bytes that values may have, eight at a time: the first bad byte from there is that from `from`. Eight at a time take 0.28 ms of a MiB of
// segments, `iter().position()` takes 0.88, and `chunks_exact(8)` with `any` 0.65: no form of the library's met the time of this one. A `for` by
// eights would forget where it ended. Bounds and no slice: a place is told from the message's first byte.
#[tactic(auto, using(crate::specs::Laws::TalliedLaws::bad_eight))]
fn past_eights(m: &[u8], from: usize, to: usize) -> usize
    requires { to ≤ length m.now }
    ensures { bad_between m.now from to ≡ bad_between m.now result to }
{
    if to < 8 {
        return from;
    }
    let last = to - 8;
    let mut i = from;
    while i <= last {
        if has_strange(m, i) {
            return i;
        }
        i += 8;
    }
    i
}

// The first byte from `from` on that no value may have, before `to`: bounds and no slice here too.
#[tactic(auto, using(crate::specs::Laws::TalliedLaws::bad_past, crate::specs::Laws::TalliedLaws::bad_here, crate::specs::Laws::TalliedLaws::bad_on))]
fn bad_byte(m: &[u8], from: usize, to: usize) -> Option<usize>
    requires { to ≤ length m.now }
    ensures { result ≡ bad_between m.now from to }
{
    for i in past_eights(m, from, to)..to {
        if is_strange(m[i]) {
            return Some(i);
        }
    }
    None
}

// One finished segment more: it begins at `at`, and its terminator stands at `end`.
fn count(t: Tally, m: &[u8], at: usize, end: usize, tag: u64) -> Tally
    requires { Below t (length m.now) × (end ≤ length m.now) }
    ensures { result ≡ together t (finished_one m.now at end tag) }
{
    Tally {
        bad: faults::earlier(t.bad, bad_byte(m, at, end)),
        segments: t.segments + 1,
        orders: t.orders + usize::from(tag == codes::LIN),
        payments: t.payments + usize::from(tag == codes::SEQ),
        unt: faults::keep(t.unt, tag != codes::UNT, at),
    }
}

// The tally with the bytes from `at` on, which are no finished segment.
#[tactic(auto, using(faults::specs::Laws::FirstsLaws::lesser_last))]
fn finish(t: Tally, m: &[u8], at: usize, end: usize) -> Tally
    requires { end ≤ length m.now }
    ensures { result ≡ together t (unfinished_one m.now at end) }
{
    Tally {
        bad: faults::earlier(t.bad, bad_byte(m, at, end)),
        ..t
    }
}

// The tally of a message: the first byte that no value may have, the segments that are finished, the LIN and SEQ among them, and the first UNT.
#[tactic(auto, using(crate::specs::Laws::TalliedLaws::tally_start, crate::specs::Laws::FewLaws::few_start, crate::specs::Laws::FewLaws::few_below, crate::specs::Laws::FewLaws::few_end, crate::specs::Laws::FewLaws::few_finished, crate::specs::Laws::FewLaws::few_unfinished, crate::specs::Laws::TalliedLaws::tally_end, crate::specs::Laws::TalliedLaws::tally_unfinished, crate::specs::Laws::TalliedLaws::tally_finished))]
pub fn tally_of(text: Text<'_>) -> Tally
    ensures { result ≡ tally_of text.entry.service text.entry.bytes.now (segments_from text.entry.service text.entry.bytes.now 0) }
{
    let mut t = Tally {
        bad: None,
        segments: 0,
        orders: 0,
        payments: 0,
        unt: None,
    };
    for piece in text.segments(0) {
        match piece {
            Piece::Finished(at, end) => {
                let tag = values::code_at(text, at);
                t = count(t, text.bytes, at, end, tag);
            }
            Piece::Unfinished(at, end) => {
                t = finish(t, text.bytes, at, end);
            }
        }
    }
    t
}

// How many segments stand before the one that holds the byte at `at`. The loop asks by `next`: which segment holds a byte is told by where the reader
// stands after it.
#[tactic(auto, using(crate::specs::Laws::PlacesLaws::passing_start, crate::specs::Laws::PlacesLaws::passed_end, crate::specs::Laws::PlacesLaws::passed_unfinished, crate::specs::Laws::PlacesLaws::passed_here, crate::specs::Laws::PlacesLaws::passed_on, crate::specs::Laws::PlacesLaws::passed_fits))]
pub fn segments_before(text: Text<'_>, at: usize) -> usize
    ensures { result ≡ passed (length text.entry.bytes.now) at (segments_from text.entry.service text.entry.bytes.now 0) }
{
    let mut segments = text.segments(0);
    let mut n: usize = 0;
    while let Some(piece) = segments.next() {
        match piece {
            Piece::Finished(_, _) => {
                if at < segments.at {
                    return n;
                }
                n += 1;
            }
            Piece::Unfinished(_, _) => {
                return n;
            }
        }
    }
    n
}

// Where the segment with `before` segments before it begins; the end of the bytes where there are fewer. No more than these are read: where the reader
// stands after them the segment begins.
#[tactic(auto, using(crate::specs::Laws::PlacesLaws::standing_start, crate::specs::Laws::PlacesLaws::stands_none, crate::specs::Laws::PlacesLaws::stands_on, crate::specs::Laws::PlacesLaws::stands_there))]
pub fn segment_start(text: Text<'_>, before: usize) -> usize
    ensures { result ≡ start_at text.entry.service text.entry.bytes.now before }
{
    let mut segments = text.segments(0);
    for _ in 0..before {
        let Some(_) = segments.next() else {
            return text.bytes.len();
        };
    }
    segments.at
}
