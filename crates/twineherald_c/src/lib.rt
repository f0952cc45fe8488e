// The calls for C, exported: each is that of the library twineherald. include/twineherald.h declares them.
#![tactic(auto)]

ghost use Rattle.lent.specs.Lists.{lists};
ghost use Rattle.twineherald.specs.Numbers.{OpenedWith, ClosedWith, Stepped, Checked, Rewritten};
ghost use Rattle.twineherald.specs.Several.{SteppedEach};

use twineherald::{ClosingNumbers, ReportNumbers, RewritingNumbers, StepNumbers};

#[unsafe(no_mangle)]
pub extern "C" fn twineherald_open(bytes: &[u8]) -> u32
    ensures { OpenedWith bytes.now result }
{
    twineherald::twineherald_open(bytes)
}

#[unsafe(no_mangle)]
pub extern "C" fn twineherald_walk(
    bytes: &[u8],
    at: usize,
    rows: &mut [u16],
    starts: &mut [u32],
    totals: &mut [u64],
) -> StepNumbers
    ensures { Stepped bytes.now at (lists rows.old starts.old totals.old) (lists rows.new starts.new totals.new) result }
{
    twineherald::twineherald_walk(bytes, at, rows, starts, totals)
}

#[unsafe(no_mangle)]
pub extern "C" fn twineherald_walk_each(
    bytes: &[u8],
    positions: &[usize],
    answers: &mut [[u32; 9]],
) -> u32
    ensures { SteppedEach bytes.now positions.now answers.old answers.new result }
{
    twineherald::twineherald_walk_each(bytes, positions, answers)
}

#[unsafe(no_mangle)]
pub extern "C" fn twineherald_check(
    head: &[u8],
    message: &[u8],
    rows: &mut [u16],
    starts: &mut [u32],
    totals: &mut [u64],
) -> ReportNumbers
    ensures { Checked head.now message.now (lists rows.old starts.old totals.old) (lists rows.new starts.new totals.new) result }
{
    twineherald::twineherald_check(head, message, rows, starts, totals)
}

#[unsafe(no_mangle)]
pub extern "C" fn twineherald_close(bytes: &[u8]) -> ClosingNumbers
    ensures { ClosedWith bytes.now result }
{
    twineherald::twineherald_close(bytes)
}

#[unsafe(no_mangle)]
pub extern "C" fn twineherald_rewrite(bytes: &[u8], room: &mut [u8]) -> RewritingNumbers
    ensures { Rewritten bytes.now result room.old room.new }
{
    twineherald::twineherald_rewrite(bytes, room)
}
