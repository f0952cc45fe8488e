// Bytes to segments: what a byte is, where a segment ends, and where the next one begins.
#![tactic(auto)]

ghost use Rattle.std.specs.Prelude.{◌≡◌, false, ◌+◌, ◌<◌, ◌≤◌, eqb, length, drop};
ghost use Rattle.segments.specs.Classes.{class_of, is_break};
ghost use Rattle.segments.specs.Forms.Bytes.{release_of, follows_release, end_from, past_breaks};
ghost use Rattle.segments.specs.Forms.Find.{first_of};
ghost use Rattle.segments.specs.Forms.Segments.{segment_at};
ghost use Rattle.std.specs.Iterator.{item_count};
ghost use Rattle.segments.specs.Left.{segments_left, Steps};
ghost use Rattle.segments.specs.SegmentList.{start_of, segments_from};

use memchr::memchr;
use service::Service;

#[derive(Clone, Copy, Debug, PartialEq, Eq)]
pub enum Class {
    Plain,
    Comp,
    Elem,
    Rel,
    Term,
}

// What stands at a position. The reader `Segments` gives an Option of a `Piece`; here the case of no byte stands beside the others, as in the
// definition `segment_at`.
#[derive(Clone, Copy, Debug, PartialEq, Eq)]
pub enum Segment {
    // A segment with its terminator at the first place, and the next one, if any, at the second.
    Finished(usize, usize),
    Unfinished,
    // No byte is left.
    Nothing,
}

// A segment from its first byte to its terminator, or to the end of the bytes where no terminator ends it.
#[derive(Clone, Copy, Debug, PartialEq, Eq)]
pub enum Piece {
    Finished(usize, usize),
    Unfinished(usize, usize),
}

impl Piece {
    pub fn start(self) -> usize
        ensures { result ≡ start_of self }
    {
        match self {
            Piece::Finished(start, _) | Piece::Unfinished(start, _) => start,
        }
    }
}

// The bytes of a text with the characters that serve it.
#[derive(Clone, Copy)]
pub struct Text<'a> {
    pub bytes: &'a [u8],
    pub service: Service,
}

impl<'a> Text<'a> {
    // The segments from the one that begins at `at`.
    pub fn segments(self, at: usize) -> Segments<'a>
        ensures left { segments_left result ≡ segments_from self.entry.service self.entry.bytes.now at }
        ensures text { result.text ≡ self.entry }
        ensures at { result.at ≡ at }
    {
        Segments { text: self, at }
    }
}

// What a byte is, where no release stands before it.
#[tactic(auto, unfolding(crate::specs::Classes::class_of))]
pub fn classify(v: Service, b: u8) -> Class
    ensures { result ≡ class_of v b }
{
    if b == v.terminator {
        Class::Term
    } else if b == v.element {
        Class::Elem
    } else if b == v.component {
        Class::Comp
    } else if v.releases && b == v.release {
        Class::Rel
    } else {
        Class::Plain
    }
}

// What an unreleased byte that is no terminator equals exactly if it is a release: the terminator itself, where there is none.
#[tactic(auto, unfolding(crate::specs::Forms::Bytes::release_of))]
fn release_of(v: Service) -> u8
    ensures { result ≡ release_of v }
{
    if classify(v, v.release) == Class::Rel {
        v.release
    } else {
        v.terminator
    }
}

// The first index at or after `at` whose byte is `x`; where there is none, an index at or past the end. An index and no Option, as `first_of` of the
// definitions gives it.
#[tactic(auto, using(crate::specs::Laws::FindLaws::first_found, crate::specs::Laws::FindLaws::first_nowhere, crate::specs::Laws::FindLaws::first_past, crate::specs::Laws::FindLaws::found_fits))]
fn find(s: &[u8], at: usize, x: u8) -> usize
    ensures { result ≡ first_of x at (drop at s.now) }
{
    if at < s.len() {
        match memchr(x, &s[at..]) {
            Some(k) => at + k,
            None => s.len(),
        }
    } else {
        at
    }
}

// The first unreleased terminator at or after `at`, byte by byte.
#[tactic(auto, using(crate::specs::Laws::BytesLaws::end_none, crate::specs::Laws::BytesLaws::end_held, crate::specs::Laws::BytesLaws::end_term, crate::specs::Laws::BytesLaws::end_on))]
fn slow_end(text: Text<'_>, at: usize) -> Option<usize>
    ensures { result ≡ end_from text.entry.service false at (drop at text.entry.bytes.now) }
{
    let release = release_of(text.service);
    let mut released = false;
    for i in at..text.bytes.len() {
        if released {
            released = false;
            continue;
        }
        let b = text.bytes[i];
        if b == text.service.terminator {
            return Some(i);
        }
        released = b == release;
    }
    None
}

// Whether the byte before `p`, at or after `at`, is the one named as the release: if not, the byte at `p` is not released.
#[tactic(auto, unfolding(crate::specs::Forms::Bytes::follows_release))]
fn follows_release(text: Text<'_>, at: usize, p: usize) -> bool
    requires { p < length text.bytes.now }
    ensures { result ≡ follows_release text.entry.service at p text.entry.bytes.now }
{
    at < p && text.bytes[p - 1] == text.service.release
}

// The first unreleased terminator at or after `at`.
#[tactic(auto, using(crate::specs::Laws::FindLaws::end_nowhere, crate::specs::Laws::FindLaws::end_first))]
fn segment_end(text: Text<'_>, at: usize) -> Option<usize>
    ensures { result ≡ end_from text.entry.service false at (drop at text.entry.bytes.now) }
{
    let p = find(text.bytes, at, text.service.terminator);
    if p < text.bytes.len() {
        if follows_release(text, at, p) {
            return slow_end(text, at);
        }
        return Some(p);
    }
    None
}

// CR or LF.
#[tactic(auto, unfolding(crate::specs::Classes::is_break))]
pub fn is_break(b: u8) -> bool
    ensures { result ≡ is_break b }
{
    b == b'\r' || b == b'\n'
}

// The first index at or after `at` that is no CR and no LF.
#[tactic(auto, using(crate::specs::Laws::BytesLaws::breaks_on, crate::specs::Laws::BytesLaws::breaks_end, crate::specs::Laws::BytesLaws::breaks_none))]
pub fn skip_breaks(s: &[u8], at: usize) -> usize
    ensures { result ≡ past_breaks at (drop at s.now) }
{
    for i in at..s.len() {
        if !is_break(s[i]) {
            return i;
        }
    }
    at.max(s.len())
}

// The segment that begins at `at`.
#[tactic(auto, using(crate::specs::Laws::SegmentsLaws::segment_nothing, crate::specs::Laws::SegmentsLaws::segment_unfinished, crate::specs::Laws::SegmentsLaws::segment_finished, crate::specs::Laws::SegmentsLaws::segment_fits))]
pub fn segment_at(text: Text<'_>, at: usize) -> Segment
    ensures { result ≡ segment_at text.entry.service at text.entry.bytes.now }
{
    if text.bytes.len() <= at {
        return Segment::Nothing;
    }
    match segment_end(text, at) {
        Some(end) => Segment::Finished(end, skip_breaks(text.bytes, end + 1)),
        None => Segment::Unfinished,
    }
}

// The segments of a text from the one that begins at `at`.
#[derive(Clone, Copy)]
pub struct Segments<'a> {
    pub text: Text<'a>,
    pub at: usize,
}

impl<'a> Iterator for Segments<'a> {
    type Item = Piece;

    ghost next_gives = { Steps };

    ghost remaining = { item_count segments_left };

    #[tactic(auto, using(crate::specs::Laws::ListLaws::list_nothing, crate::specs::Laws::ListLaws::list_finished, crate::specs::Laws::ListLaws::list_last, crate::specs::Laws::ListLaws::list_within))]
    fn next(&mut self) -> Option<Piece> {
        let start = self.at;
        match segment_at(self.text, start) {
            Segment::Finished(end, next) => {
                self.at = next;
                Some(Piece::Finished(start, end))
            }
            Segment::Unfinished => {
                self.at = self.text.bytes.len();
                Some(Piece::Unfinished(start, self.at))
            }
            Segment::Nothing => None,
        }
    }
}
