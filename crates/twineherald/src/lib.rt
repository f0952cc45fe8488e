// The calls that C makes, by the crate twineherald_c: open, walk from one position or from several, check, close and rewrite on byte slices and numbers.
#![tactic(auto)]

ghost use Rattle.std.specs.Prelude.{◌≡◌, ◌≤◌, length};
ghost use Rattle.lent.specs.Lists.{lists};
ghost use Rattle.report.specs.Forms.Few.{Few, FewIn};
ghost use Rattle.twineherald.specs.Numbers.{accepted_of, refused_of, report_of, nothing_of, step_with, step_of, OpenedWith, ClosedWith, Stepped, Checked, Rewritten};
ghost use Rattle.twineherald.specs.Several.{numbers_of, Answered, AnsweredEach, SteppedEach};
ghost use Rattle.twineherald.specs.Forms.Few.{FewWalked};

use interchange::Refusal;
use lent::Lists;
use numbers::Number;
use report::Counts;
use segments::Text;
use walk::Walked;

// Numbers, 0 for none, and lists apart: the C interface.
#[repr(C)]
#[derive(Clone, Copy, Debug, PartialEq, Eq)]
pub struct ReportNumbers {
    pub number: u32,
    pub segment: u32,
    pub offset: u32,
    pub segments: u32,
    pub orders: u32,
    pub payments: u32,
}

#[repr(C)]
#[derive(Clone, Copy, Debug, PartialEq, Eq)]
pub struct StepNumbers {
    pub found: u32,
    pub start: u32,
    pub end: u32,
    pub report: ReportNumbers,
}

#[repr(C)]
#[derive(Clone, Copy, Debug, PartialEq, Eq)]
pub struct ClosingNumbers {
    pub number: u32,
    pub messages: u32,
    pub strays: u32,
}

#[repr(C)]
#[derive(Clone, Copy, Debug, PartialEq, Eq)]
pub struct RewritingNumbers {
    pub number: u32,
    pub length: u32,
}

const NOTHING: ReportNumbers = ReportNumbers {
    number: 0,
    segment: 0,
    offset: 0,
    segments: 0,
    orders: 0,
    payments: 0,
};

impl From<Refusal> for ReportNumbers {
    ghost use Rattle.std.specs.Prelude.{◌≡◌};
    ghost use Rattle.twineherald.specs.Numbers.{refused_of};

    ghost from_gives = { λ r n. n ≡ refused_of r };

    fn from(r: Refusal) -> Self {
        ReportNumbers {
            number: u32::from(r.number),
            segment: r.segment,
            offset: r.offset,
            segments: 0,
            orders: 0,
            payments: 0,
        }
    }
}

// No From: only few counts fit. Here and below `as` is of numbers that a contract shows to fit: `TryFrom` would add an Err that never comes.
fn accepted(c: Counts) -> ReportNumbers
    requires { Few c }
    ensures { result ≡ accepted_of c }
{
    ReportNumbers {
        number: 0,
        segment: 0,
        offset: 0,
        segments: c.segments as u32,
        orders: c.orders as u32,
        payments: c.payments as u32,
    }
}

#[tactic(auto, using(report::specs::Laws::FewLaws::accepted_few, crate::specs::Laws::NumbersLaws::report_accepted, crate::specs::Laws::NumbersLaws::report_refused))]
fn report_numbers(r: Result<Counts, Refusal>) -> ReportNumbers
    requires { FewIn r }
    ensures { result ≡ report_of r }
{
    match r {
        Ok(c) => accepted(c),
        Err(f) => ReportNumbers::from(f),
    }
}

fn step_numbers(found: u32, start: usize, end: usize, r: ReportNumbers) -> StepNumbers
    requires start_bound { start ≤ 1048576 }
    requires end_bound { end ≤ 1048576 }
    ensures { result ≡ step_with found start end r }
{
    StepNumbers {
        found,
        start: start as u32,
        end: end as u32,
        report: r,
    }
}

#[tactic(auto, using(crate::specs::Laws::FewLaws::start_small, crate::specs::Laws::FewLaws::end_small, crate::specs::Laws::FewLaws::counts_few, crate::specs::Laws::NumbersLaws::step_message, crate::specs::Laws::NumbersLaws::step_nothing, crate::specs::Laws::NumbersLaws::step_refused))]
fn step_of(w: Result<Option<Walked>, Refusal>) -> StepNumbers
    requires { FewWalked w }
    ensures { result ≡ step_of w }
{
    match w {
        Ok(Some(m)) => step_numbers(1, m.start, m.end, report_numbers(m.report)),
        Ok(None) => step_numbers(0, 0, 0, NOTHING),
        Err(f) => step_numbers(0, 0, 0, ReportNumbers::from(f)),
    }
}

// No From: an array does not say which nine numbers it holds, and this name does.
fn numbers_of(y: StepNumbers) -> [u32; 9]
    ensures { result ≡ numbers_of y }
{
    let r = y.report;
    [
        y.found, y.start, y.end, r.number, r.segment, r.offset, r.segments, r.orders, r.payments,
    ]
}

#[tactic(auto, using(crate::specs::Laws::FewLaws::judge_few, crate::specs::Laws::SeveralLaws::answer_by))]
fn answer_at(bytes: &[u8], at: usize) -> [u32; 9]
    ensures { Answered bytes.now at result }
{
    numbers_of(step_of(walk::judge(bytes, at)))
}

#[tactic(auto, using(crate::specs::Laws::SeveralLaws::upto_none, crate::specs::Laws::SeveralLaws::upto_room, crate::specs::Laws::SeveralLaws::upto_next, crate::specs::Laws::SeveralLaws::upto_all, crate::specs::Laws::SeveralLaws::upto_same))]
fn answer_each(bytes: &[u8], positions: &[usize], answers: &mut [[u32; 9]])
    requires { length positions.now ≤ length answers.old }
    ensures { AnsweredEach bytes.now positions.now answers.old answers.new }
{
    // No `zip`: it would end in silence where the answers end; an index has to be shown to be within.
    for i in 0..positions.len() {
        answers[i] = answer_at(bytes, positions[i]);
    }
}

#[tactic(auto, using(crate::specs::Laws::NumbersLaws::open_opens, crate::specs::Laws::NumbersLaws::open_refused))]
pub fn twineherald_open(bytes: &[u8]) -> u32
    ensures { OpenedWith bytes.now result }
{
    match interchange::open(bytes) {
        Ok(_) => 0,
        Err(r) => u32::from(r.number),
    }
}

#[tactic(auto, using(crate::specs::Numbers::stepped, crate::specs::Laws::FewLaws::walk_few))]
pub fn twineherald_walk(
    bytes: &[u8],
    at: usize,
    rows: &mut [u16],
    starts: &mut [u32],
    totals: &mut [u64],
) -> StepNumbers
    ensures { Stepped bytes.now at (lists rows.old starts.old totals.old) (lists rows.new starts.new totals.new) result }
{
    let mut lists = Lists {
        rows,
        starts,
        totals,
    };
    step_of(walk::walk(bytes, at, &mut lists))
}

#[tactic(auto, using(crate::specs::Laws::SeveralLaws::each_short, crate::specs::Laws::SeveralLaws::each_given))]
pub fn twineherald_walk_each(bytes: &[u8], positions: &[usize], answers: &mut [[u32; 9]]) -> u32
    ensures { SteppedEach bytes.now positions.now answers.old answers.new result }
{
    if answers.len() < positions.len() {
        return u32::from(Number::Lists);
    }
    answer_each(bytes, positions, answers);
    0
}

#[tactic(auto, using(report::specs::Laws::FewLaws::report_few, crate::specs::Laws::NumbersLaws::check_fit, crate::specs::Laws::NumbersLaws::check_unfit))]
pub fn twineherald_check(
    head: &[u8],
    message: &[u8],
    rows: &mut [u16],
    starts: &mut [u32],
    totals: &mut [u64],
) -> ReportNumbers
    ensures { Checked head.now message.now (lists rows.old starts.old totals.old) (lists rows.new starts.new totals.new) result }
{
    match service::characters_of(head) {
        Some(c) => {
            let text = Text {
                bytes: message,
                service: c.service,
            };
            let mut lists = Lists {
                rows,
                starts,
                totals,
            };
            report_numbers(report::check(text, &mut lists))
        }
        None => ReportNumbers::from(interchange::refuse(Number::Characters)),
    }
}

#[tactic(auto, using(crate::specs::Laws::NumbersLaws::messages_small, crate::specs::Laws::NumbersLaws::strays_small, crate::specs::Laws::NumbersLaws::closing_by_lem, crate::specs::Laws::NumbersLaws::closing_refused))]
pub fn twineherald_close(bytes: &[u8]) -> ClosingNumbers
    ensures { ClosedWith bytes.now result }
{
    match interchange::close(bytes) {
        Ok(c) => ClosingNumbers {
            number: numbers::told(c.fault),
            messages: c.messages as u32,
            strays: c.strays as u32,
        },
        Err(r) => ClosingNumbers {
            number: u32::from(r.number),
            messages: 0,
            strays: 0,
        },
    }
}

#[tactic(auto, using(crate::specs::Laws::NumbersLaws::written_small, crate::specs::Laws::NumbersLaws::written_by, crate::specs::Laws::NumbersLaws::refused_by))]
pub fn twineherald_rewrite(bytes: &[u8], room: &mut [u8]) -> RewritingNumbers
    ensures { Rewritten bytes.now result room.old room.new }
{
    match rewrite::rewrite(bytes, room) {
        Ok(n) => RewritingNumbers {
            number: 0,
            length: n as u32,
        },
        Err(r) => RewritingNumbers {
            number: u32::from(r.number),
            length: 0,
        },
    }
}
