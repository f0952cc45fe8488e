// What the values of a segment say: compared, measured, read as codes, numbers and amounts. A value is given by its segment, element and component, or by
// the position where it begins: the definition `value_in` names it so.
#![tactic(auto)]

ghost use Rattle.std.specs.Prelude.{◌≡◌, ◌≤◌, length};
ghost use Rattle.std.specs.Iterator.{YieldsFirst, item_count};
ghost use Rattle.values.specs.Numbers.{value_from, value_in};
ghost use Rattle.values.specs.Left.{value_left};
ghost use Rattle.values.specs.Forms.Values.{number_of, digit_more, most_of, part_of, whole_of, fraction, amount_of, code_of, is_number, is_capital, is_capitals};
ghost use Rattle.values.specs.Text.{same_list};

pub mod codes;

use parts::Token;
use segments::Text;

// The greatest number of eighteen digits: one digit more still fits.
const EIGHTEEN_DIGITS: u64 = 999999999999999999;

// The greatest number of eleven digits: a whole part has one digit more at most.
const ELEVEN_DIGITS: u64 = 99999999999;

// 2^56 - 1: a code above it has its digit 1 and seven bytes already.
const SEVEN_BYTES: u64 = 72057594037927935;

// The bytes of a value, released or not, from a place on.
#[derive(Clone, Copy)]
struct Value<'a> {
    text: Text<'a>,
    at: usize,
}

impl<'a> Iterator for Value<'a> {
    type Item = u8;

    ghost next_gives = { YieldsFirst value_left };

    ghost remaining = { item_count value_left };

    #[tactic(auto, using(crate::specs::Laws::ValuesLaws::value_byte, crate::specs::Laws::ValuesLaws::value_comp, crate::specs::Laws::ValuesLaws::value_elem, crate::specs::Laws::ValuesLaws::value_stop))]
    fn next(&mut self) -> Option<u8> {
        match parts::token_at(self.text, self.at) {
            Token::Byte(b, next) => {
                self.at = next;
                Some(b)
            }
            Token::Comp(_) | Token::Elem(_) | Token::Stop => None,
        }
    }
}

// The value as one number: the digit 1 and then its bytes, to the base 256. It is 0 for more than seven bytes. 0 and no Option: it equals no code, so
// that a comparison needs no case more.
#[tactic(auto, using(crate::specs::Laws::ValuesLaws::code_done, crate::specs::Laws::ValuesLaws::code_long, crate::specs::Laws::ValuesLaws::code_more))]
fn code(value: Value<'_>) -> u64
    ensures { result ≡ code_of (value_left value.entry) }
{
    let mut code: u64 = 1;
    for b in value {
        if SEVEN_BYTES < code {
            return 0;
        }
        code = code * 256 + u64::from(b);
    }
    code
}

// How many digits may be written: the nineteen of a number, or the twelve of a whole part.
#[derive(Clone, Copy)]
enum Limit {
    Nineteen,
    Twelve,
}

impl Limit {
    // The greatest number after which one digit more may stand. That digit fits, whichever limit it is.
    fn most(self) -> u64
        ensures most { result ≡ most_of self }
        ensures fits { result ≤ 999999999999999999 }
    {
        match self {
            Limit::Nineteen => EIGHTEEN_DIGITS,
            Limit::Twelve => ELEVEN_DIGITS,
        }
    }
}

// The number that one read before, if any, and then the digit `b` write: no leading zero, and no digit more than the limit allows.
#[tactic(auto, unfolding(crate::specs::Forms::Values::digit_more))]
fn one_more(before: Option<u64>, b: u8, limit: Limit) -> Option<u64>
    ensures { result ≡ digit_more (most_of limit) before b }
{
    if !b.is_ascii_digit() {
        return None;
    }
    let digit = u64::from(b - b'0');
    match before {
        None => Some(digit),
        Some(n) => {
            if limit.most() < n || n == 0 {
                None
            } else {
                Some(n * 10 + digit)
            }
        }
    }
}

// The number that the value writes: digits, no leading zero, below 10^19.
#[tactic(auto, using(crate::specs::Laws::ValuesLaws::num_start, crate::specs::Laws::ValuesLaws::num_end, crate::specs::Laws::ValuesLaws::num_stop, crate::specs::Laws::ValuesLaws::num_on))]
fn number(value: Value<'_>) -> Option<u64>
    ensures { result ≡ number_of (value_left value.entry) }
{
    let mut number = None;
    for b in value {
        number = Some(one_more(number, b, Limit::Nineteen)?);
    }
    number
}

// The whole part of an amount, 1 to 12 digits with no leading zero, and, where a mark comes after it, what is left: before a mark there may be no
// digit, which is 0. The loop asks by `next`: what stands after the mark is given back.
#[tactic(auto, using(crate::specs::Laws::AmountLaws::unit_ends, crate::specs::Laws::AmountLaws::unit_none, crate::specs::Laws::AmountLaws::unit_mark, crate::specs::Laws::AmountLaws::unit_other, crate::specs::Laws::AmountLaws::unit_more))]
fn whole(mut value: Value<'_>) -> Option<(u64, Option<Value<'_>>)>
    ensures { part_of result ≡ whole_of (value_left value.entry) }
{
    let mut units = None;
    while let Some(b) = value.next() {
        if service::is_mark(b) {
            return Some((units.unwrap_or(0), Some(value)));
        }
        units = Some(one_more(units, b, Limit::Twelve)?);
    }
    Some((units?, None))
}

// The thousandths that up to three digits write.
#[tactic(auto, using(crate::specs::Laws::AmountLaws::weigh_start, crate::specs::Laws::AmountLaws::weigh_mul, crate::specs::Laws::AmountLaws::weigh_add, crate::specs::Laws::AmountLaws::weigh_on, crate::specs::Laws::AmountLaws::frac_of, crate::specs::Laws::AmountLaws::frac_none, crate::specs::Laws::AmountLaws::frac_other, crate::specs::Laws::AmountLaws::frac_long, crate::specs::Laws::AmountLaws::frac_on))]
fn fraction(value: Value<'_>) -> Option<u64>
    ensures { result ≡ fraction 100 0 (value_left value.entry) }
{
    let mut sum: u64 = 0;
    let mut weight: u64 = 100;
    for b in value {
        if !b.is_ascii_digit() {
            return None;
        }
        if weight == 0 {
            return None;
        }
        sum += u64::from(b - b'0') * weight;
        weight /= 10;
    }
    if weight < 100 { Some(sum) } else { None }
}

// The thousandths that the value writes: 1 to 12 digits with no leading zero, or none before a mark, and after a mark 1 to 3 digits.
#[tactic(auto, using(crate::specs::Laws::AmountLaws::amount_none, crate::specs::Laws::AmountLaws::amount_ends, crate::specs::Laws::AmountLaws::marked_not, crate::specs::Laws::AmountLaws::marked_of, crate::specs::Laws::AmountLaws::ends_below, crate::specs::Laws::AmountLaws::marked_below, crate::specs::Laws::AmountLaws::fraction_below))]
fn amount(value: Value<'_>) -> Option<u64>
    ensures { result ≡ amount_of (value_left value.entry) }
{
    match whole(value)? {
        (units, None) => Some(units * 1000),
        (units, Some(rest)) => {
            let thousandths = fraction(rest)?;
            Some(units * 1000 + thousandths)
        }
    }
}

// A capital, A to Z.
#[tactic(auto, unfolding(crate::specs::Forms::Values::is_capital))]
fn is_capital(b: u64) -> bool
    ensures { result ≡ is_capital b }
{
    u64::from(b'A') <= b && b <= u64::from(b'Z')
}

// Whether a code is that of three capitals.
#[tactic(auto, unfolding(crate::specs::Forms::Values::is_capitals))]
pub fn is_capitals(code: u64) -> bool
    ensures { result ≡ is_capitals code }
{
    code / 16777216 == 1
        && is_capital(code / 65536 % 256)
        && is_capital(code / 256 % 256)
        && is_capital(code % 256)
}

// The value that begins at `at`.
pub fn code_at(text: Text<'_>, at: usize) -> u64
    ensures { result ≡ code_of (value_from text.entry.service at text.entry.bytes.now) }
{
    code(Value { text, at })
}

// Component `c` of element `e` of the segment that begins at `at`.
fn value_in(text: Text<'_>, at: usize, e: usize, c: usize) -> Value<'_>
    ensures { value_left result ≡ value_in text.entry.service at text.entry.bytes.now e c }
{
    let at = parts::component(text, at, e, c);
    Value { text, at }
}

// How many bytes that component has.
#[tactic(auto, using(crate::specs::Laws::ValuesLaws::counted, crate::specs::Laws::ValuesLaws::count_fits))]
pub fn length_in(text: Text<'_>, at: usize, e: usize, c: usize) -> usize
    ensures { result ≡ length (value_in text.entry.service at text.entry.bytes.now e c) }
{
    value_in(text, at, e, c).count()
}

// Whether it is component `d` of element `f` of the segment that begins at `other`. Each is named by segment, element and component, as the rules
// name values.
#[tactic(auto, using(crate::specs::Laws::ValuesLaws::same_is))]
pub fn same_in(
    text: Text<'_>,
    at: usize,
    e: usize,
    c: usize,
    other: usize,
    f: usize,
    d: usize,
) -> bool
    ensures { result ≡ same_list (value_in text.entry.service at text.entry.bytes.now e c) (value_in text.entry.service other text.entry.bytes.now f d) }
{
    value_in(text, at, e, c).eq(value_in(text, other, f, d))
}

// The code of component `c` of element `e` of the segment that begins at `at`.
pub fn code_in(text: Text<'_>, at: usize, e: usize, c: usize) -> u64
    ensures { result ≡ code_of (value_in text.entry.service at text.entry.bytes.now e c) }
{
    code(value_in(text, at, e, c))
}

// The thousandths that it writes.
pub fn amount_in(text: Text<'_>, at: usize, e: usize, c: usize) -> Option<u64>
    ensures { result ≡ amount_of (value_in text.entry.service at text.entry.bytes.now e c) }
{
    amount(value_in(text, at, e, c))
}

// Whether it writes the number `n`.
#[tactic(auto, using(crate::specs::Laws::ValuesLaws::number_is_by))]
pub fn number_is(text: Text<'_>, at: usize, e: usize, c: usize, n: u64) -> bool
    ensures { result ≡ is_number (number_of (value_in text.entry.service at text.entry.bytes.now e c)) n }
{
    number(value_in(text, at, e, c)) == Some(n)
}
