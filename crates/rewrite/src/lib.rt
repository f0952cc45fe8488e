// An interchange rewritten in plain service characters.
#![tactic(auto)]

ghost use Rattle.std.specs.Prelude.{◌≤◌, ◌≡◌, true, false, [], ◌∷◌, ◌++◌, length, drop, replicate};
ghost use Rattle.parts.specs.Parts.{lex};
ghost use Rattle.parts.specs.Trimmed.{values_at, values_from};
ghost use Rattle.rewrite.specs.Plain.{is_released, plain_byte, plain_segment, plain, fits, rewriting_of, room_after};
ghost use Rattle.rewrite.specs.Forms.Flat.{flat, leads, lead};
ghost use Rattle.lent.specs.Forms.Puts.{Puts};

use interchange::Refusal;
use numbers::Number;
use parts::{Part, Token, Tokens};
use segments::{Piece, Text};

// Whether a byte of a value is written with a release before it.
#[tactic(auto, unfolding(crate::specs::Plain::is_released, service::specs::Service::among))]
fn is_released(b: u8) -> bool
    ensures { result ≡ is_released b }
{
    b == b':' || b == b'+' || b == b'?' || b == b'\''
}

// How many bytes a byte of a value takes.
#[tactic(auto, using(crate::specs::Laws::LengthLaws::width_two, crate::specs::Laws::LengthLaws::width_one))]
fn width(b: u8) -> usize
    ensures { result ≡ length (plain_byte b) }
{
    if is_released(b) { 2 } else { 1 }
}

// Whether the segment at `at` begins with a CR or LF.
#[tactic(auto, using(crate::specs::Laws::LengthLaws::leads_byte, crate::specs::Laws::LengthLaws::leads_comp, crate::specs::Laws::LengthLaws::leads_elem, crate::specs::Laws::LengthLaws::leads_stop))]
fn begins_with_break(text: Text<'_>, at: usize) -> bool
    ensures { result ≡ leads (lex text.entry.service false (drop at text.entry.bytes.now)) }
{
    match parts::token_at(text, at) {
        Token::Byte(b, _) => segments::is_break(b),
        Token::Comp(_) | Token::Elem(_) | Token::Stop => false,
    }
}

// How many bytes the segment at `at` takes, a release before a CR or LF that begins it and its terminator not counted: separators count only if a
// byte follows them. The limit is a clause here and no type: only counting needs it.
#[tactic(auto, using(crate::specs::Laws::LengthLaws::counted_start, crate::specs::Laws::LengthLaws::count_add, crate::specs::Laws::LengthLaws::count_sum, crate::specs::Laws::LengthLaws::count_width, crate::specs::Laws::LengthLaws::count_one_comp, crate::specs::Laws::LengthLaws::count_one_elem, crate::specs::Laws::LengthLaws::count_most, crate::specs::Laws::LengthLaws::count_byte, crate::specs::Laws::LengthLaws::count_comp, crate::specs::Laws::LengthLaws::count_elem, crate::specs::Laws::LengthLaws::count_stop))]
fn flat_length(text: Text<'_>, at: usize) -> usize
    requires { length text.bytes.now ≤ 1048576 }
    ensures value { result ≡ length (flat 0 0 (lex text.entry.service false (drop at text.entry.bytes.now))) }
    ensures upper_bound { result ≤ 2097152 }
{
    let mut n: usize = 0;
    let mut elements: usize = 0;
    let mut components: usize = 0;
    let tokens = Tokens { text, at };
    for part in tokens {
        match part {
            Part::Byte(b) => {
                n = n + elements + components + width(b);
                elements = 0;
                components = 0;
            }
            Part::Comp => {
                components += 1;
            }
            Part::Elem => {
                elements += 1;
                components = 0;
            }
        }
    }
    n
}

// How many bytes the segment at `at` takes, its terminator not counted.
#[tactic(auto, using(crate::specs::Laws::LengthLaws::length_led, crate::specs::Laws::LengthLaws::length_plain))]
fn plain_length(text: Text<'_>, at: usize) -> usize
    requires { length text.bytes.now ≤ 1048576 }
    ensures value { result ≡ length (plain_segment (values_at text.entry.service text.entry.bytes.now at)) }
    ensures upper_bound { result ≤ 2097153 }
{
    let n = flat_length(text, at);
    if begins_with_break(text, at) {
        n + 1
    } else {
        n
    }
}

// How many bytes the segments from `at` on take.
#[tactic(auto, using(crate::specs::Laws::LengthLaws::summed_start, crate::specs::Laws::LengthLaws::sum_unfinished, crate::specs::Laws::LengthLaws::sum_nothing, crate::specs::Laws::LengthLaws::sum_fits, crate::specs::Laws::LengthLaws::sum_one_fits, crate::specs::Laws::LengthLaws::sum_next))]
fn total_length(text: Text<'_>, at: usize) -> usize
    requires { length text.bytes.now ≤ 1048576 }
    ensures { result ≡ length (plain (values_from text.entry.service text.entry.bytes.now at)) }
{
    let mut n: usize = 0;
    for piece in text.segments(at) {
        if let Piece::Finished(start, _) = piece {
            n = n + plain_length(text, start) + 1;
        }
    }
    n
}

// The room and the place in it go hand in hand as two values, and are no struct: `Puts` and the theorems over it speak of the place before and after.
// Counting and writing stand apart: whether the room is enough is known before a byte is put, and one function over a sink would have to state the length
// and `Puts` in one clause.

// Puts a byte `n` times from `j` on, and gives the place past it.
#[tactic(auto, using(crate::specs::Laws::PutsLaws::times_start, crate::specs::Laws::PutsLaws::times_put, crate::specs::Laws::PutsLaws::times_done))]
fn put_times(out: &mut [u8], j: usize, b: u8, n: usize) -> usize
    ensures { Puts j (replicate n b) out.old out.new result }
{
    let mut k = j;
    for _ in 0..n {
        k = lent::put(out, k, b);
    }
    k
}

// Puts a byte of a value at `j`, with a release before it if it needs one, and gives the place past it.
#[tactic(auto, using(crate::specs::Laws::PutsLaws::byte_released, crate::specs::Laws::PutsLaws::byte_plain))]
fn put_value_byte(out: &mut [u8], j: usize, b: u8) -> usize
    ensures { Puts j (plain_byte b) out.old out.new result }
{
    if is_released(b) {
        let k = lent::put(out, j, b'?');
        return lent::put(out, k, b);
    }
    lent::put(out, j, b)
}

// Puts the release before a CR or LF that begins the segment at `at`, if it does, and gives the place past it.
#[tactic(auto, using(crate::specs::Laws::WriteLaws::lead_put, crate::specs::Laws::WriteLaws::lead_none))]
fn put_lead(text: Text<'_>, at: usize, out: &mut [u8], j: usize) -> usize
    ensures { Puts j (lead (lex text.entry.service false (drop at text.entry.bytes.now))) out.old out.new result }
{
    if begins_with_break(text, at) {
        lent::put(out, j, b'?')
    } else {
        j
    }
}

// Puts the values of the segment at `at` from `from` on, and gives the place past them.
#[tactic(auto, using(crate::specs::Laws::WriteLaws::flow_start, crate::specs::Laws::WriteLaws::flow_byte, crate::specs::Laws::WriteLaws::flow_comp, crate::specs::Laws::WriteLaws::flow_elem, crate::specs::Laws::WriteLaws::flow_stop, crate::specs::Laws::WriteLaws::flow_comp_fits, crate::specs::Laws::WriteLaws::flow_elem_fits))]
fn put_flat(text: Text<'_>, at: usize, out: &mut [u8], from: usize) -> usize
    ensures { Puts from (flat 0 0 (lex text.entry.service false (drop at text.entry.bytes.now))) out.old out.new result }
{
    let mut j = from;
    let mut elements: usize = 0;
    let mut components: usize = 0;
    let tokens = Tokens { text, at };
    for part in tokens {
        match part {
            Part::Byte(b) => {
                j = put_times(out, j, b'+', elements);
                j = put_times(out, j, b':', components);
                j = put_value_byte(out, j, b);
                elements = 0;
                components = 0;
            }
            Part::Comp => {
                components += 1;
            }
            Part::Elem => {
                elements += 1;
                components = 0;
            }
        }
    }
    j
}

// Puts the segment at `at` from `from` on, with its terminator, and gives the place past it.
#[tactic(auto, using(crate::specs::Laws::WriteLaws::segment_put))]
fn put_segment(text: Text<'_>, at: usize, out: &mut [u8], from: usize) -> usize
    ensures { Puts from (plain_segment (values_at text.entry.service text.entry.bytes.now at) ++ 39 ∷ []) out.old out.new result }
{
    let j = put_lead(text, at, out, from);
    let k = put_flat(text, at, out, j);
    lent::put(out, k, b'\'')
}

// Puts the segments from `at` on, and gives the place past them.
#[tactic(auto, using(crate::specs::Laws::WriteLaws::segments_start, crate::specs::Laws::WriteLaws::segments_put, crate::specs::Laws::WriteLaws::segments_unfinished, crate::specs::Laws::WriteLaws::segments_nothing))]
fn put_segments(text: Text<'_>, at: usize, out: &mut [u8]) -> usize
    ensures { Puts 0 (plain (values_from text.entry.service text.entry.bytes.now at)) out.old out.new result }
{
    let mut j: usize = 0;
    for piece in text.segments(at) {
        if let Piece::Finished(start, _) = piece {
            j = put_segment(text, start, out, j);
        }
    }
    j
}

// Whether a result of `n` bytes fits the room and the limit.
#[tactic(auto, unfolding(crate::specs::Plain::fits))]
fn fits_room(n: usize, room: usize) -> bool
    ensures { result ≡ fits n room }
{
    n <= interchange::MOST && n <= room
}

// Writes the interchange in plain service characters to the front of `out`, and gives how many bytes were written.
#[tactic(auto, using(crate::specs::Laws::RoomLaws::opened_within, crate::specs::Laws::RoomLaws::refused_answer, crate::specs::Laws::RoomLaws::refused_room, crate::specs::Laws::RoomLaws::long_answer, crate::specs::Laws::RoomLaws::long_room, crate::specs::Laws::RoomLaws::written_answer, crate::specs::Laws::RoomLaws::written_room))]
pub fn rewrite(s: &[u8], out: &mut [u8]) -> Result<usize, Refusal>
    ensures value { result ≡ rewriting_of s.now (length out.old) }
    ensures out_after { out.new ≡ room_after s.now out.old }
{
    let opened = interchange::open(s)?;
    let text = Text {
        bytes: s,
        service: opened.service,
    };
    let n = total_length(text, opened.first);
    if !fits_room(n, out.len()) {
        return Err(interchange::refuse(Number::Room));
    }
    Ok(put_segments(text, opened.first, out))
}
