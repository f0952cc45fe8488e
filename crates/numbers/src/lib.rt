// The table of refusals: a case for each, and its number.
#![tactic(auto)]

ghost use Rattle.std.specs.Prelude.{◌≡◌, ℕ};
ghost use Rattle.numbers.specs.Table.{table_number, number_told};

// Why something is refused. A case stands in the table under its number; there is no 15 and no 19.
#[derive(Clone, Copy, Debug, PartialEq, Eq, PartialOrd, Ord, Hash)]
pub enum Number {
    // 1 to 4 refuse the whole interchange: it is too long, its UNA does not fit, it has no fit UNB, no finished UNZ ends it.
    TooLong = 1,
    Characters = 2,
    Header = 3,
    End = 4,
    // 5 to 7 are found at its end: UNZ's count, its reference, and segments outside every message.
    Count = 5,
    Reference = 6,
    Strays = 7,
    // 8, 9 and 14 are a caller's: a position past the end, no room for what is written, a list too short.
    Position = 8,
    Room = 9,
    // 10 to 13 refuse a message before it is placed: a byte that no value may have, no UNT at its end, no such UNH, too many segments.
    Byte = 10,
    Unclosed = 11,
    Type = 12,
    TooMany = 13,
    Lists = 14,
    // Its segments cannot be placed on the chart.
    Placement = 16,
    // UNT's count and reference.
    TrailerCount = 17,
    TrailerReference = 18,
    // The numbers of LIN and SEQ.
    LineNumber = 20,
    SequenceNumber = 21,
    // The amounts of an order: form, qualifier, currency, exchange, total.
    Amount = 22,
    Qualifier = 23,
    Currency = 24,
    Exchange = 25,
    Total = 26,
    // Who pays and is paid, what for, and the control total.
    Parties = 27,
    Details = 28,
    Control = 29,
    // An advice: its dates and its references.
    Dates = 30,
    References = 31,
}

impl From<Number> for u32 {
    ghost from_gives = { λ r n. n ≡ table_number r };

    fn from(number: Number) -> u32 {
        // `as` gives the discriminant of a case; there is no other form.
        number as u32
    }
}

// What has a number: a case of the table its own, and any number itself.
pub trait Numbered: Copy {
    ghost number: { Self → ℕ };

    // The number.
    fn number(self) -> u32
        ensures { result ≡ number self };
}

impl Numbered for Number {
    ghost number = { table_number };

    fn number(self) -> u32 {
        u32::from(self)
    }
}

impl Numbered for u32 {
    ghost number = { λ n. n };

    fn number(self) -> u32 {
        self
    }
}

// What is told where a case may apply: its number, or 0 where none does.
pub fn told(number: Option<Number>) -> u32
    ensures { result ≡ number_told number }
{
    match number {
        Some(number) => u32::from(number),
        None => 0,
    }
}
