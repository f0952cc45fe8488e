// The envelope of an interchange, and where its messages lie.
#![tactic(auto)]

ghost use Rattle.std.specs.Prelude.{◌≡◌, ◌≤◌};
ghost use Rattle.service.specs.Tests.{is_empty};
ghost use Rattle.segments.specs.Left.{segments_left};
ghost use Rattle.segments.specs.SegmentList.{segments_from};
ghost use Rattle.values.specs.Forms.Values.{code_of};
ghost use Rattle.interchange.specs.Messages.{tag_at, kind_by, kind_of, past_of, found_from};
ghost use Rattle.interchange.specs.Envelope.{is_reference, is_header, is_unz, ended, first_at, body_of};
ghost use Rattle.interchange.specs.Answers.{refusal};
ghost use Rattle.interchange.specs.Opened.{OpenedAs};
ghost use Rattle.interchange.specs.Closed.{ClosedAs};
ghost use Rattle.interchange.specs.Forms.Answers.{read_by, header_by, opened_by, closing_fault, closing_by};
ghost use Rattle.interchange.specs.Forms.Found.{end_found};
ghost use Rattle.interchange.specs.Forms.Survey.{survey_of};

use numbers::Number;
use segments::{Piece, Segments, Text};
use service::{Characters, Service};
use values::codes;

// The most bytes of an interchange.
pub const MOST: usize = 1048576;

// A number, which is a case of the table where nothing else is said, a segment (the UNH is 1) and an offset from the UNH's first byte.
#[derive(Clone, Copy, Debug, PartialEq, Eq, Hash)]
pub struct Refusal<N = Number> {
    pub number: N,
    pub segment: u32,
    pub offset: u32,
}

// An interchange that opens: the service characters, and where the UNB begins.
#[derive(Clone, Copy, Debug, PartialEq, Eq)]
pub struct Opened {
    pub service: Service,
    pub first: usize,
}

// A message, from its first byte up to but excluding its end.
#[derive(Clone, Copy, Debug, PartialEq, Eq, Hash)]
pub struct Span {
    pub start: usize,
    pub end: usize,
}

// What a segment is to the envelope: a UNH, a UNT, the end UNZ, any other, or unfinished.
// Public, for the proofs on messages in crates above name it.
#[derive(Clone, Copy, Debug, PartialEq, Eq)]
pub enum Kind {
    Head,
    Trailer,
    Last,
    Other,
    Cut,
}

// What is counted up to the end UNZ.
#[derive(Clone, Copy, Debug, PartialEq, Eq)]
pub struct Survey {
    pub messages: u64,
    pub strays: u64,
    // Where the end UNZ begins.
    pub end: usize,
}

// What closing says: one of 5 to 7, if one applies, with the messages and the strays.
#[derive(Clone, Copy, Debug, PartialEq, Eq, Hash)]
pub struct Closing {
    pub fault: Option<Number>,
    pub messages: u64,
    pub strays: u64,
}

// A refusal that speaks of the whole interchange, by any number. 0 and no Option: the definition `refusal` says 0, and so does what C receives.
pub fn refuse<N>(number: N) -> Refusal<N>
    ensures { result ≡ refusal number }
{
    Refusal {
        number,
        segment: 0,
        offset: 0,
    }
}

// The tag of the segment that begins at `at`, as a code.
#[tactic(auto, unfolding(crate::specs::Messages::tag_at))]
fn tag_at(text: Text<'_>, at: usize) -> u64
    ensures { result ≡ code_of (tag_at text.entry.service text.entry.bytes.now at) }
{
    values::code_at(text, at)
}

// Whether a length is 1 to 14.
#[tactic(auto, unfolding(crate::specs::Envelope::is_reference))]
pub fn is_reference(n: usize) -> bool
    ensures { result ≡ is_reference n }
{
    n >= 1 && n <= 14
}

// Whether the segment at `at` is a UNB of syntax version 3 with a control reference.
#[tactic(auto, using(crate::specs::Laws::TagLaws::unb_code, crate::specs::Laws::TagLaws::three_code), unfolding(crate::specs::Envelope::is_header))]
fn is_header(text: Text<'_>, at: usize) -> bool
    ensures { result ≡ is_header text.entry.service text.entry.bytes.now at }
{
    tag_at(text, at) == codes::UNB
        && values::code_in(text, at, 1, 1) == codes::THREE
        && is_reference(values::length_in(text, at, 5, 0))
}

// Where one of the last segments begins, or `at`: a terminator with no release just before it ends a segment, whatever stands before.
#[tactic(auto, using(crate::specs::Laws::NearLaws::near))]
fn near_end(text: Text<'_>, at: usize) -> usize
    ensures { ended text.entry.service text.entry.bytes.now (segments_from text.entry.service text.entry.bytes.now at) ≡ ended text.entry.service text.entry.bytes.now (segments_from text.entry.service text.entry.bytes.now result) }
{
    for i in (at.saturating_add(1)..text.bytes.len()).rev() {
        if text.bytes[i] == text.service.terminator && text.bytes[i - 1] != text.service.release {
            let next = segments::skip_breaks(text.bytes, i + 1);
            if next < text.bytes.len() {
                return next;
            }
        }
    }
    at
}

// Whether a segment is a finished UNZ.
#[tactic(auto, using(crate::specs::Laws::TagLaws::unz_code))]
fn is_unz(text: Text<'_>, piece: Piece) -> bool
    ensures { result ≡ is_unz text.entry.service text.entry.bytes.now piece }
{
    match piece {
        Piece::Finished(at, _) => tag_at(text, at) == codes::UNZ,
        Piece::Unfinished(_, _) => false,
    }
}

// Whether the last of the segments from `at` on is a finished UNZ.
fn ends_with_unz(text: Text<'_>, at: usize) -> bool
    ensures { result ≡ ended text.entry.service text.entry.bytes.now (segments_from text.entry.service text.entry.bytes.now at) }
{
    // `match` and no `is_some_and`: a closure would need the clause of `is_unz` written on it once more.
    match text.segments(near_end(text, at)).last() {
        Some(piece) => is_unz(text, piece),
        None => false,
    }
}

// Where the first segment begins: after UNA and its breaks, or at the first byte.
#[tactic(auto, unfolding(crate::specs::Envelope::first_at))]
fn first_segment(s: &[u8], una: usize) -> usize
    ensures { result ≡ first_at s.now una }
{
    if una == 0 {
        0
    } else {
        segments::skip_breaks(s, una)
    }
}

// Where the UNB begins.
#[tactic(auto, using(crate::specs::Laws::OpenLaws::header_found, crate::specs::Laws::OpenLaws::header_missed))]
fn header_of(text: Text<'_>, una: usize) -> Result<usize, Refusal>
    ensures { result ≡ header_by text.entry.service text.entry.bytes.now (first_at text.entry.bytes.now una) }
{
    let first = first_segment(text.bytes, una);
    if is_header(text, first) {
        Ok(first)
    } else {
        Err(refuse(Number::Header))
    }
}

// The service characters that the bytes are read by: 1 if they are too many for an interchange, 2 if the characters don't fit.
#[tactic(auto, using(crate::specs::Laws::OpenLaws::read_long, crate::specs::Laws::OpenLaws::read_unfit, crate::specs::Laws::OpenLaws::read_fit))]
pub fn characters_of(s: &[u8]) -> Result<Characters, Refusal>
    ensures { result ≡ read_by s.now }
{
    if MOST < s.len() {
        return Err(refuse(Number::TooLong));
    }
    service::characters_of(s).ok_or(refuse(Number::Characters))
}

#[tactic(auto, using(crate::specs::Laws::OpenLaws::open_headless, crate::specs::Laws::OpenLaws::open_endless, crate::specs::Laws::OpenLaws::open_whole))]
fn open_with(text: Text<'_>, una: usize) -> Result<Opened, Refusal>
    ensures { result ≡ opened_by text.entry.service text.entry.bytes.now (first_at text.entry.bytes.now una) }
{
    let first = header_of(text, una)?;
    if !ends_with_unz(text, first) {
        return Err(refuse(Number::End));
    }
    Ok(Opened {
        service: text.service,
        first,
    })
}

// Whether the bytes are an interchange that opens.
#[tactic(auto, using(crate::specs::Laws::OpenedLaws::is_opening, crate::specs::Laws::OpenLaws::open_unread, crate::specs::Laws::OpenLaws::open_read))]
pub fn open(s: &[u8]) -> Result<Opened, Refusal>
    ensures { OpenedAs s.now result }
{
    let named = characters_of(s)?;
    let text = Text {
        bytes: s,
        service: named.service,
    };
    open_with(text, named.una)
}

// What the finished segment at `at` is, before the segments `rest`. A tag whose first byte is neither a U nor a release is none of the three.
#[tactic(auto, using(crate::specs::Laws::KindLaws::other_byte, crate::specs::Laws::KindLaws::tag_head, crate::specs::Laws::KindLaws::tag_trailer, crate::specs::Laws::KindLaws::tag_last, crate::specs::Laws::KindLaws::tag_other))]
fn kind_at(rest: Segments<'_>, at: usize) -> Kind
    ensures { result ≡ kind_by (tag_at rest.entry.text.service rest.entry.text.bytes.now at) (is_empty (segments_left rest.entry)) }
{
    let text = rest.text;
    if at < text.bytes.len() {
        let b = text.bytes[at];
        if b != b'U' && b != text.service.release {
            return Kind::Other;
        }
    }
    let tag = tag_at(text, at);
    if tag == codes::UNH {
        Kind::Head
    } else if tag == codes::UNT {
        Kind::Trailer
    } else if tag == codes::UNZ && text.bytes.len() <= rest.at {
        Kind::Last
    } else {
        Kind::Other
    }
}

// What a segment is to the envelope, before the segments `rest`. The loops that ask it call `next`, with no `for`: a segment is told by what is left after it, which a `for` keeps to itself.
fn kind_of(rest: Segments<'_>, piece: Piece) -> Kind
    ensures { result ≡ kind_of rest.entry.text.service rest.entry.text.bytes.now piece (segments_left rest.entry) }
{
    match piece {
        Piece::Finished(at, _) => kind_at(rest, at),
        Piece::Unfinished(_, _) => Kind::Cut,
    }
}

// Where a segment ends, its terminator included.
fn past(piece: Piece) -> usize
    requires { past_of piece ≤ 18446744073709551615 }
    ensures { result ≡ past_of piece }
{
    match piece {
        Piece::Finished(_, t) => t + 1,
        Piece::Unfinished(_, end) => end,
    }
}

// The message that begins at `start`, its end sought among the segments `rest`.
#[tactic(auto, using(crate::specs::Laws::FindLaws::ending_start, crate::specs::Laws::FindLaws::end_fits, crate::specs::Laws::FindLaws::end_trailer, crate::specs::Laws::FindLaws::end_head, crate::specs::Laws::FindLaws::end_last, crate::specs::Laws::FindLaws::end_cut, crate::specs::Laws::FindLaws::end_on, crate::specs::Laws::FindLaws::end_nothing))]
fn find_end(start: usize, rest: Segments<'_>) -> Result<Option<Span>, Refusal>
    ensures { result ≡ end_found rest.entry.text.service rest.entry.text.bytes.now start (segments_left rest.entry) }
{
    let mut segments = rest;
    // `next` and no `for`: `kind_of` asks what is left after the segment.
    while let Some(piece) = segments.next() {
        match kind_of(segments, piece) {
            Kind::Trailer => {
                let end = past(piece);
                return Ok(Some(Span { start, end }));
            }
            Kind::Head | Kind::Last => {
                let end = piece.start();
                return Ok(Some(Span { start, end }));
            }
            Kind::Cut => {
                return Err(refuse(Number::End));
            }
            Kind::Other => {}
        }
    }
    let end = rest.text.bytes.len();
    Ok(Some(Span { start, end }))
}

// The next message from the position `at` on, which is read as though a terminator stood just before.
#[tactic(auto, using(crate::specs::Laws::FindLaws::finding_start, crate::specs::Laws::FindLaws::find_head, crate::specs::Laws::FindLaws::find_cut, crate::specs::Laws::FindLaws::find_on, crate::specs::Laws::FindLaws::find_nothing))]
pub fn find(text: Text<'_>, at: usize) -> Result<Option<Span>, Refusal>
    ensures { result ≡ found_from text.entry.service text.entry.bytes.now at }
{
    let mut segments = text.segments(segments::skip_breaks(text.bytes, at));
    // `next` and no `for`: `kind_of` asks what is left after the segment.
    while let Some(piece) = segments.next() {
        match kind_of(segments, piece) {
            Kind::Head => {
                return find_end(piece.start(), segments);
            }
            Kind::Cut => {
                return Err(refuse(Number::End));
            }
            _ => {}
        }
    }
    Ok(None)
}

// The segments after the one that begins at `at`.
#[tactic(auto, using(crate::specs::Laws::SurveyLaws::body_left))]
fn after<'a>(text: Text<'a>, at: usize) -> Segments<'a>
    ensures left { segments_left result ≡ body_of text.entry.service text.entry.bytes.now at }
    ensures text { result.text ≡ text.entry }
{
    let mut segments = text.segments(at);
    segments.next();
    segments
}

// The messages and the strays among the segments `rest`, up to the end UNZ. Without one it is 4.
#[tactic(auto, using(crate::specs::Laws::SurveyLaws::survey_start, crate::specs::Laws::SurveyLaws::survey_fits, crate::specs::Laws::SurveyLaws::survey_head, crate::specs::Laws::SurveyLaws::survey_last, crate::specs::Laws::SurveyLaws::survey_cut, crate::specs::Laws::SurveyLaws::survey_trailer, crate::specs::Laws::SurveyLaws::survey_other, crate::specs::Laws::SurveyLaws::survey_stray_trailer, crate::specs::Laws::SurveyLaws::survey_stray, crate::specs::Laws::SurveyLaws::survey_nothing))]
fn survey_of(rest: Segments<'_>) -> Result<Survey, Refusal>
    ensures { result ≡ survey_of rest.entry.text.service rest.entry.text.bytes.now (segments_left rest.entry) }
{
    let mut segments = rest;
    let mut inside = false;
    let mut messages: u64 = 0;
    let mut strays: u64 = 0;
    // `next` and no `for`: `kind_of` asks what is left after the segment.
    while let Some(piece) = segments.next() {
        match kind_of(segments, piece) {
            Kind::Head => {
                messages += 1;
                inside = true;
            }
            Kind::Trailer => {
                if inside {
                    inside = false;
                } else {
                    strays += 1;
                }
            }
            Kind::Other => {
                if !inside {
                    strays += 1;
                }
            }
            Kind::Last => {
                let end = piece.start();
                return Ok(Survey {
                    messages,
                    strays,
                    end,
                });
            }
            Kind::Cut => {
                return Err(refuse(Number::End));
            }
        }
    }
    Err(refuse(Number::End))
}

// What the UNZ says against what was found, and against the UNB at `first`.
#[tactic(auto, using(crate::specs::Laws::CloseLaws::closing_count, crate::specs::Laws::CloseLaws::closing_reference, crate::specs::Laws::CloseLaws::closing_strays, crate::specs::Laws::CloseLaws::closing_well))]
fn closing_fault(text: Text<'_>, first: usize, found: Survey) -> Option<Number>
    ensures { result ≡ closing_fault text.entry.service text.entry.bytes.now first found.end found.messages found.strays }
{
    if !values::number_is(text, found.end, 1, 0, found.messages) {
        Some(Number::Count)
    } else if !values::same_in(text, first, 5, 0, found.end, 2, 0) {
        Some(Number::Reference)
    } else if found.strays != 0 {
        Some(Number::Strays)
    } else {
        None
    }
}

#[tactic(auto, using(crate::specs::Laws::CloseLaws::close_headless, crate::specs::Laws::CloseLaws::close_endless, crate::specs::Laws::CloseLaws::close_whole))]
fn close_with(text: Text<'_>, una: usize) -> Result<Closing, Refusal>
    ensures { result ≡ closing_by text.entry.bytes.now (opened_by text.entry.service text.entry.bytes.now (first_at text.entry.bytes.now una)) }
{
    let first = header_of(text, una)?;
    let found = survey_of(after(text, first))?;
    // No From: a survey and the fault beside it make a closing only here.
    Ok(Closing {
        fault: closing_fault(text, first, found),
        messages: found.messages,
        strays: found.strays,
    })
}

// Counts the messages and the strays, and compares the UNZ with them and with the UNB: one walk over the segments, which also finds 4. A generic function
// for it and `open` would take `close_with` or `open_with` and its clause as arguments.
#[tactic(auto, using(crate::specs::Laws::ClosingLaws::is_closing, crate::specs::Laws::CloseLaws::close_unread, crate::specs::Laws::CloseLaws::close_read))]
pub fn close(s: &[u8]) -> Result<Closing, Refusal>
    ensures { ClosedAs s.now result }
{
    let named = characters_of(s)?;
    let text = Text {
        bytes: s,
        service: named.service,
    };
    close_with(text, named.una)
}
