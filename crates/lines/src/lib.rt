// The lines of the report program as bytes. No Display: a `Result` is not this crate's type, and a type of its own for each line is no plainer.
// A length of 0 says that a line does not fit, and no Option: `Lined` promises it, and no line is empty.
#![tactic(auto)]

ghost use Rattle.std.specs.Prelude.{◌≡◌, ◌≤◌, ◌<◌, ◌+◌, ◌*◌, ◌++◌, length};
ghost use Rattle.arrayvec.specs.ArrayVec.{array_vec_len};
ghost use Rattle.values.specs.Text.{text};
ghost use Rattle.lines.specs.Lines.{message_line_by, end_line, open_line, Lined};
ghost use Rattle.lines.specs.Forms.Numbers.{numbers};

use arrayvec::ArrayVec;
use interchange::Refusal;
use itoa::Buffer;
use numbers::Numbered;
use report::Counts;

// A line while it is written: no line is longer.
type Line = ArrayVec<u8, 128>;

// Writes bytes behind what a line has.
fn put(line: &mut Line, bytes: &[u8])
    requires { array_vec_len line.old + length bytes.now ≤ 128 }
    ensures { line.new.items ≡ line.old.items ++ bytes.now }
{
    let _ = line.try_extend_from_slice(bytes);
}

// Writes numbers behind what a line has, a space before each.
fn put_numbers(line: &mut Line, list: &[u64])
    requires { array_vec_len line.old + 21 * length list.now ≤ 128 }
    ensures items { line.new.items ≡ line.old.items ++ numbers list.now }
    ensures few { array_vec_len line.new ≤ array_vec_len line.old + 21 * length list.now }
{
    for n in list {
        line.push(b' ');
        put(line, Buffer::new().format(*n).as_bytes());
    }
}

// Writes a line over the front of `room`, if it fits, and gives its length, or 0.
#[tactic(auto, using(crate::specs::Laws::LinesLaws::show_long, crate::specs::Laws::LinesLaws::show_fits))]
fn show(l: &[u8], room: &mut [u8]) -> usize
    ensures { Lined l.now room.old room.new result }
{
    let n = l.len();
    if room.len() < n {
        return 0;
    }
    room[..n].copy_from_slice(l);
    n
}

// Ends a line with numbers, and writes it over the front of `room`, if it fits, and gives its length, or 0.
#[tactic(auto, using(crate::specs::Laws::LinesLaws::end_short))]
fn end(mut line: Line, list: &[u64], room: &mut [u8]) -> usize
    requires { array_vec_len line + 21 * length list.now < 128 }
    ensures lined { Lined (line.items ++ (numbers list.now ++ text "\n")) room.old room.new result }
    ensures short { length (line.items ++ (numbers list.now ++ text "\n")) ≤ 128 }
{
    put_numbers(&mut line, list);
    line.push(b'\n');
    show(line.as_slice(), room)
}

// Writes the line of a message over the front of `room`, and gives its length; 0 if it does not fit.
// Any number is written, also one outside the table: `message_line_by` promises it of each.
pub fn message_line<N: Numbered>(
    place: u64,
    told: Result<Counts, Refusal<N>>,
    room: &mut [u8],
) -> usize
    ensures lined { Lined (message_line_by N.number place told) room.old room.new result }
    ensures told_len_bound { length (message_line_by N.number place told) ≤ 128 }
{
    let mut line = Line::new();
    put(&mut line, b"MSG");
    put_numbers(&mut line, &[place]);
    match told {
        Ok(c) => {
            put(&mut line, b" OK");
            // `as`: `usize` has no `From` for it.
            end(
                line,
                &[c.segments as u64, c.orders as u64, c.payments as u64],
                room,
            )
        }
        Err(f) => {
            put(&mut line, b" NO");
            end(
                line,
                &[
                    u64::from(f.number.number()),
                    u64::from(f.segment),
                    u64::from(f.offset),
                ],
                room,
            )
        }
    }
}

// Writes the last line over the front of `room`, and gives its length; 0 if it does not fit.
// Any number is written, also one outside the table: `end_line` promises it of each.
pub fn end_line(messages: u64, accepted: u64, strays: u64, closing: u64, room: &mut [u8]) -> usize
    ensures lined { Lined (end_line messages accepted strays closing) room.old room.new result }
    ensures closing_len_bound { length (end_line messages accepted strays closing) ≤ 128 }
{
    let mut line = Line::new();
    put(&mut line, b"END");
    end(line, &[messages, accepted, strays, closing], room)
}

// Writes the line of a failed opening over the front of `room`, and gives its length; 0 if it does not fit.
// Any number is written, also one outside the table: `open_line` promises it of each.
pub fn open_line(number: u64, room: &mut [u8]) -> usize
    ensures lined { Lined (open_line number) room.old room.new result }
    ensures number_len_bound { length (open_line number) ≤ 128 }
{
    let mut line = Line::new();
    put(&mut line, b"OPEN NO");
    end(line, &[number], room)
}
