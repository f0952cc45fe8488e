// Codes of the values that a function asks for, as `code_at` gives them: the digit 1, and then the bytes, to the base 256.
// A value with a release in it is no slice of the bytes, so values are compared by their codes. A constant is named for the letters of its value, or for the number that it writes.

// The code of the letters, of which there are seven at most.
macro_rules! code {
    ($($letter:literal)*) => {
        code!(@onto 1, $($letter)*)
    };
    (@onto $code:expr,) => {
        $code
    };
    // `as`: a constant cannot be made by `From`.
    (@onto $code:expr, $letter:literal $($more:literal)*) => {
        code!(@onto $code * 256 + $letter as u64, $($more)*)
    };
}

// The value of no byte.
pub const EMPTY: u64 = code!();

pub const UNB: u64 = code!(b'U' b'N' b'B');

pub const UNH: u64 = code!(b'U' b'N' b'H');

pub const UNT: u64 = code!(b'U' b'N' b'T');

pub const UNZ: u64 = code!(b'U' b'N' b'Z');

pub const LIN: u64 = code!(b'L' b'I' b'N');

pub const SEQ: u64 = code!(b'S' b'E' b'Q');

pub const PAYMUL: u64 = code!(b'P' b'A' b'Y' b'M' b'U' b'L');

pub const DEBMUL: u64 = code!(b'D' b'E' b'B' b'M' b'U' b'L');

pub const D: u64 = code!(b'D');

pub const NINETY_SIX_A: u64 = code!(b'9' b'6' b'A');

pub const UN: u64 = code!(b'U' b'N');

pub const OR: u64 = code!(b'O' b'R');

pub const PL: u64 = code!(b'P' b'L');

pub const OY: u64 = code!(b'O' b'Y');

pub const BF: u64 = code!(b'B' b'F');

pub const PE: u64 = code!(b'P' b'E');

pub const BE: u64 = code!(b'B' b'E');

pub const ONE: u64 = code!(b'1');

pub const TWO: u64 = code!(b'2');

pub const THREE: u64 = code!(b'3');

pub const EIGHT: u64 = code!(b'8');

pub const NINE: u64 = code!(b'9');

pub const TEN: u64 = code!(b'1' b'0');

pub const ELEVEN: u64 = code!(b'1' b'1');

pub const FIFTY_SEVEN: u64 = code!(b'5' b'7');

pub const HUNDRED: u64 = code!(b'1' b'0' b'0');

pub const THOUSAND: u64 = code!(b'1' b'0' b'0' b'0');

pub const HUNDRED_SIX: u64 = code!(b'1' b'0' b'6');

pub const TWO_HUNDRED_TWO: u64 = code!(b'2' b'0' b'2');

pub const TWO_HUNDRED_NINE: u64 = code!(b'2' b'0' b'9');

pub const THREE_HUNDRED_FORTY_TWO: u64 = code!(b'3' b'4' b'2');

pub const FOUR_HUNDRED_FIFTY_FIVE: u64 = code!(b'4' b'5' b'5');
