// Reads an interchange from standard input and reports on each of its messages.
#![tactic(auto)]

ghost use Rattle.std.specs.Prelude.{◌≤◌, ◌<◌, ◌≡◌, length, take, OnOk, IfSome};
ghost use Rattle.std.specs.Fn.{FnOnceReturnsAtMut};
ghost use Rattle.std.specs.Io.KnownBytes.{Appends, Consumes, IsAtEnd};
ghost use Rattle.numbers.specs.Table.{number_told, table_number};
ghost use Rattle.lines.specs.Lines.{message_line, end_line, open_line};
ghost use Rattle.payreport.specs.Printed.{accepts, Opened, WalksAt, AcceptedOf, LineOf, MakesLine, TookLine, Tells, Reported};

use interchange::{Closing, Refusal};
use lent::Lists;
use numbers::Number;
use report::Counts;
use std::io;
use std::io::{Read, Write};
use walk::Walked;

// A longer input is not reported on.
const MOST: usize = 32768;

// So much is read of an input: a byte more, which tells that it is too long.
const READ: usize = 32769;

// Hands a line of the report on `s` to the output. `s` is for the clause: only a line of its report is written.
fn write_line<W: Write>(out: &mut W, s: &[u8], l: &[u8]) -> io::Result<()>
    requires { LineOf s.now l.now }
    ensures { OnOk result (Appends (W.contents out.old) (W.contents out.new) l.now) }
{
    out.write_all(l)
}

// Makes a line in a room that holds the longest one, and hands it to the output.
fn put_line<W: Write, F: FnOnce(&mut [u8]) -> usize>(
    out: &mut W,
    s: &[u8],
    make: F,
) -> io::Result<()>
    requires call { F.IsAlwaysCallable make }
    requires line { MakesLine s.now (FnOnceReturnsAtMut F.FnOnce make) }
    ensures { OnOk result (TookLine (FnOnceReturnsAtMut F.FnOnce make) (W.contents out.old) (W.contents out.new)) }
{
    let mut room = [0u8; 128];
    let n = make(&mut room);
    write_line(out, s, &room[..n])
}

// One message's line.
fn put_message<W: Write>(
    out: &mut W,
    s: &[u8],
    place: u64,
    told: Result<Counts, Refusal>,
) -> io::Result<()>
    requires { LineOf s.now (message_line place told) }
    ensures { OnOk result (Appends (W.contents out.old) (W.contents out.new) (message_line place told)) }
{
    put_line(out, s, |room| lines::message_line(place, told, room))
}

// The last line, after the messages.
fn put_end<W: Write>(out: &mut W, s: &[u8], accepted: u64, c: Closing) -> io::Result<()>
    requires { LineOf s.now (end_line c.messages accepted c.strays (number_told c.fault)) }
    ensures { OnOk result (Appends (W.contents out.old) (W.contents out.new) (end_line c.messages accepted c.strays (number_told c.fault))) }
{
    let number = u64::from(numbers::told(c.fault));
    put_line(out, s, |room| {
        lines::end_line(c.messages, accepted, c.strays, number, room)
    })
}

// The only line, where the interchange does not open.
fn put_open<W: Write>(out: &mut W, s: &[u8], told: Number) -> io::Result<()>
    requires { LineOf s.now (open_line (table_number told)) }
    ensures { OnOk result (Appends (W.contents out.old) (W.contents out.new) (open_line (table_number told))) }
{
    let number = u64::from(u32::from(told));
    put_line(out, s, |room| lines::open_line(number, room))
}

// 1 if a message is accepted.
fn counted(told: Result<Counts, Refusal>) -> u64
    ensures value { result ≡ accepts told }
    ensures upper_bound { result ≤ 1 }
{
    u64::from(told.is_ok())
}

// The next message from the position `at` on, judged with lists for 2,000 segments and 400 orders.
#[tactic(auto, using(crate::specs::Laws::PrintedLaws::walks_at))]
fn walk_from(s: &[u8], at: usize) -> Result<Option<Walked>, Refusal>
    ensures { WalksAt s.now at result }
{
    let mut lists = Lists {
        rows: &mut [0; 2000],
        starts: &mut [0; 2000],
        totals: &mut [0; 400],
    };
    walk::walk(s, at, &mut lists)
}

// A line for each message: how many were accepted, and whether every line was written. After a line that was not, the next is tried.
// A pair and no Result: the count is needed for the last line also where a line could not be written.
#[tactic(auto, using(crate::specs::Laws::PrintedLaws::stand_first, crate::specs::Laws::PrintedLaws::goes_on, crate::specs::Laws::PrintedLaws::place_fits, crate::specs::Laws::PrintedLaws::accepted_fits, crate::specs::Laws::PrintedLaws::told_line, crate::specs::Laws::PrintedLaws::none_left, crate::specs::Laws::PrintedLaws::told_next))]
fn put_messages<W: Write>(out: &mut W, s: &[u8]) -> (u64, io::Result<()>)
    requires { Opened s.now }
    ensures count { AcceptedOf s.now result.0 }
    ensures lines { OnOk result.1 (Tells s.now result.0 (W.contents out.old) (W.contents out.new)) }
{
    let mut at: usize = 0;
    let mut place: u64 = 0;
    let mut accepted: u64 = 0;
    let mut written = Ok(());
    // No `for`: an iterator over messages would state `WalksAt` once more, for this loop alone.
    while let Ok(Some(found)) = walk_from(s, at) {
        place += 1;
        written = written.and(put_message(out, s, place, found.report));
        accepted += counted(found.report);
        at = found.end;
    }
    (accepted, written)
}

// The lines of an interchange that is short enough.
#[tactic(auto, using(crate::specs::Laws::PrintedLaws::opened_so, crate::specs::Laws::PrintedLaws::end_so, crate::specs::Laws::PrintedLaws::unopened_line))]
fn report_on<W: Write>(out: &mut W, s: &[u8]) -> io::Result<()>
    requires { length s.now ≤ 32768 }
    ensures { OnOk result (Reported s.now (W.contents out.old) (W.contents out.new)) }
{
    match interchange::close(s) {
        Ok(closing) => {
            let (accepted, written) = put_messages(out, s);
            written.and(put_end(out, s, accepted, closing))
        }
        Err(refusal) => put_open(out, s, refusal.number),
    }
}

// The report on `s`. On `Ok` an output whose contents are known has got every line, once and in order, and nothing else.
fn put_report<W: Write>(out: &mut W, s: &[u8]) -> io::Result<()>
    ensures { OnOk result (Reported s.now (W.contents out.old) (W.contents out.new)) }
{
    if MOST < s.len() {
        return put_open(out, s, Number::TooLong);
    }
    report_on(out, s)
}

// Reads until `room` is full, the input ends or a read fails: how many bytes it put over the front of `room`, and whether no read failed. std's
// readings to the end fill a Vec or fail at the end, and this room is fixed. A pair and no Result: what was read is reported on also where a read failed.
fn read_full<R: Read>(input: &mut R, room: &mut [u8]) -> (usize, io::Result<()>)
    ensures within { result.0 ≤ length room.new }
    ensures taken { Consumes (R.remaining input.old) (R.remaining input.new) (take result.0 room.new) }
    ensures whole { OnOk result.1 (result.0 < length room.new → IsAtEnd (R.remaining input.new)) }
{
    let mut done: usize = 0;
    while done < room.len() {
        match input.read(&mut room[done..]) {
            Ok(0) => return (done, Ok(())),
            Ok(n) => done += n,
            Err(e) => return (done, Err(e)),
        }
    }
    (done, Ok(()))
}

// The report on an input. One byte more of it is read than a report may have, which tells that it is too long; a read that fails ends
// it. On `Ok` no read failed, and an output whose contents are known has got the report on all that a known input held.
fn report_input<R: Read, W: Write>(input: &mut R, out: &mut W) -> io::Result<()>
    ensures { OnOk result (IfSome (R.remaining input.old) (λ s. Reported s (W.contents out.old) (W.contents out.new))) }
{
    let mut buffer = [0u8; READ];
    let (n, read) = read_full(input, &mut buffer);
    read.and(put_report(out, &buffer[..n]))
}

// That the input could not be read or a line not be written is not told.
fn main(rt: HostRuntime) {
    let _ = report_input(&mut rt.reader(), &mut io::writer(&rt));
}
