// The next message of an interchange from any position, found and judged.
#![tactic(auto)]

ghost use Rattle.std.specs.Prelude.{◌≡◌};
ghost use Rattle.lent.specs.Lent.{lent, SameLists};
ghost use Rattle.walk.specs.Frame.{step_at};
ghost use Rattle.walk.specs.Walks.{Walks, Judges};

use interchange::{Refusal, Span};
use lent::Lists;
use numbers::Number;
use report::Counts;
use segments::Text;

// A message from its first byte up to but excluding its end, which is the next position, and its report.
// `start` and `end`, with no `Span`: the definition `Message` of the steps, the theorems on it and the callers name them so.
#[derive(Clone, Copy, Debug, PartialEq, Eq)]
pub struct Walked {
    pub start: usize,
    pub end: usize,
    pub report: Result<Counts, Refusal>,
}

// Finds the next message from the position `at` on.
#[tactic(auto, using(crate::specs::Laws::FrameLaws::step_past, crate::specs::Laws::FrameLaws::step_found))]
fn seek(text: Text<'_>, at: usize) -> Result<Option<Span>, Refusal>
    ensures { result ≡ step_at text.entry.service text.entry.bytes.now at }
{
    if text.bytes.len() < at {
        return Err(interchange::refuse(Number::Position));
    }
    interchange::find(text, at)
}

// Finds the next message from the position `at` on, and checks it.
#[tactic(auto, using(crate::specs::Laws::PlaceLaws::part_order, crate::specs::Laws::PlaceLaws::part_within, crate::specs::Laws::WalksLaws::walk_unread, crate::specs::Laws::WalksLaws::walk_message, crate::specs::Laws::WalksLaws::walk_nothing, crate::specs::Laws::WalksLaws::walk_refused))]
pub fn walk(s: &[u8], at: usize, lists: &mut Lists<'_>) -> Result<Option<Walked>, Refusal>
    ensures walks { Walks s.now at (lent lists.old) (lent lists.new) result }
    ensures same_references { SameLists lists.old lists.new }
{
    let service = interchange::characters_of(s)?.service;
    let Some(span) = seek(Text { bytes: s, service }, at)? else {
        return Ok(None);
    };
    let message = Text {
        bytes: &s[span.start..span.end],
        service,
    };
    let report = report::check(message, lists);
    Ok(Some(Walked {
        start: span.start,
        end: span.end,
        report,
    }))
}

// Finds the next message from the position `at` on, and judges it as if every list were long enough.
#[tactic(auto, using(crate::specs::Laws::PlaceLaws::part_order, crate::specs::Laws::PlaceLaws::part_within, crate::specs::Laws::JudgesLaws::judge_unread, crate::specs::Laws::JudgesLaws::judge_message, crate::specs::Laws::JudgesLaws::judge_nothing, crate::specs::Laws::JudgesLaws::judge_refused))]
pub fn judge(s: &[u8], at: usize) -> Result<Option<Walked>, Refusal>
    ensures { Judges s.now at result }
{
    // As `walk` but for the one call of `report`: an inner function for both needs a clause of its own for the bytes, their characters and their place, and is no plainer.
    let service = interchange::characters_of(s)?.service;
    let Some(span) = seek(Text { bytes: s, service }, at)? else {
        return Ok(None);
    };
    let message = Text {
        bytes: &s[span.start..span.end],
        service,
    };
    let report = report::judge(message);
    Ok(Some(Walked {
        start: span.start,
        end: span.end,
        report,
    }))
}
