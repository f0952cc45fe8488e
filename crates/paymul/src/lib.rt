// The PAYMUL chart: a constant table, one row per segment and group.
#![tactic(auto)]

ghost use Rattle.std.specs.Prelude.{◌≡◌};
ghost use Rattle.paymul.specs.Table.{PAYMUL};

use table::{OUTSIDE, Row, rows};

pub const ROWS: usize = 113;

// The rows that a rule speaks of.
pub const LIN: usize = 17;

pub const ORDER_MOA: usize = 23;

pub const ORDER_CUX: usize = 24;

pub const ORDER_FII: usize = 28;

pub const ORDER_NAD: usize = 32;

pub const ORDER_PRC: usize = 47;

pub const SEQ: usize = 50;

pub const PAYMENT_MOA: usize = 51;

pub const PAYMENT_FII: usize = 57;

pub const PAYMENT_NAD: usize = 61;

pub const PAYMENT_PRC: usize = 76;

pub const PAYMENT_FTX: usize = 77;

pub const PAYMENT_DOC: usize = 79;

pub const CNT: usize = 108;

pub const UNT: usize = 112;

// The rows are those of the guide's section 2.2, numbered from 1; row 0 is the message itself, a group opened by its UNH.
static CHART: [Row; ROWS] = rows![
    [b"UNH", OUTSIDE, 113, M, 1], // 0 the message
    [b"UNH", 0, 2, M, 1], // 1
    [b"BGM", 0, 3, M, 1], // 2
    [b"DTM", 0, 4, M, 1], // 3
    [b"BUS", 0, 5, N, 1], // 4
    [b"RFF", 0, 8, D, 2], // 5 SG1
    [b"RFF", 5, 7, M, 1], // 6
    [b"DTM", 5, 8, O, 1], // 7
    [b"FII", 0, 12, O, 5], // 8 SG2
    [b"FII", 8, 10, M, 1], // 9
    [b"CTA", 8, 11, N, 1], // 10
    [b"COM", 8, 12, N, 5], // 11
    [b"NAD", 0, 16, O, 3], // 12 SG3
    [b"NAD", 12, 14, M, 1], // 13
    [b"CTA", 12, 15, O, 1], // 14
    [b"COM", 12, 16, O, 5], // 15
    [b"LIN", 0, 108, M, 9999], // 16 SG4
    [b"LIN", 16, 18, M, 1], // 17
    [b"DTM", 16, 19, R, 1], // 18
    [b"RFF", 16, 20, R, 2], // 19
    [b"BUS", 16, 21, D, 1], // 20
    [b"FCA", 16, 22, D, 1], // 21
    [b"MOA", 16, 27, R, 1], // 22 SG5
    [b"MOA", 22, 24, M, 1], // 23
    [b"CUX", 22, 25, D, 1], // 24
    [b"DTM", 22, 26, D, 2], // 25
    [b"RFF", 22, 27, D, 1], // 26
    [b"FII", 16, 31, M, 1], // 27 SG6
    [b"FII", 27, 29, M, 1], // 28
    [b"CTA", 27, 30, N, 1], // 29
    [b"COM", 27, 31, N, 5], // 30
    [b"NAD", 16, 35, O, 3], // 31 SG7
    [b"NAD", 31, 33, M, 1], // 32
    [b"CTA", 31, 34, O, 1], // 33
    [b"COM", 31, 35, O, 5], // 34
    [b"INP", 16, 39, O, 1], // 35 SG8
    [b"INP", 35, 37, M, 1], // 36
    [b"FTX", 35, 38, O, 1], // 37
    [b"DTM", 35, 39, O, 2], // 38
    [b"GIS", 16, 46, D, 10], // 39 SG9
    [b"GIS", 39, 41, M, 1], // 40
    [b"MOA", 39, 42, O, 1], // 41
    [b"LOC", 39, 43, O, 2], // 42
    [b"NAD", 39, 44, O, 1], // 43
    [b"RCS", 39, 45, O, 1], // 44
    [b"FTX", 39, 46, O, 10], // 45
    [b"PRC", 16, 49, D, 1], // 46 SG10
    [b"PRC", 46, 48, M, 1], // 47
    [b"FTX", 46, 49, M, 1], // 48
    [b"SEQ", 16, 108, M, 9999], // 49 SG11
    [b"SEQ", 49, 51, M, 1], // 50
    [b"MOA", 49, 52, M, 1], // 51
    [b"DTM", 49, 53, O, 1], // 52
    [b"RFF", 49, 54, R, 3], // 53
    [b"PAI", 49, 55, O, 1], // 54
    [b"FCA", 49, 56, D, 1], // 55
    [b"FII", 49, 60, D, 3], // 56 SG12
    [b"FII", 56, 58, M, 1], // 57
    [b"CTA", 56, 59, N, 1], // 58
    [b"COM", 56, 60, N, 5], // 59
    [b"NAD", 49, 64, O, 3], // 60 SG13
    [b"NAD", 60, 62, M, 1], // 61
    [b"CTA", 60, 63, O, 1], // 62
    [b"COM", 60, 64, O, 5], // 63
    [b"INP", 49, 68, O, 3], // 64 SG14
    [b"INP", 64, 66, M, 1], // 65
    [b"FTX", 64, 67, D, 1], // 66
    [b"DTM", 64, 68, O, 2], // 67
    [b"GIS", 49, 75, D, 10], // 68 SG15
    [b"GIS", 68, 70, M, 1], // 69
    [b"MOA", 68, 71, O, 1], // 70
    [b"LOC", 68, 72, O, 2], // 71
    [b"NAD", 68, 73, O, 1], // 72
    [b"RCS", 68, 74, O, 1], // 73
    [b"FTX", 68, 75, O, 10], // 74
    [b"PRC", 49, 108, D, 1], // 75 SG16
    [b"PRC", 75, 77, M, 1], // 76
    [b"FTX", 75, 78, D, 5], // 77
    [b"DOC", 75, 105, D, 9999], // 78 SG17
    [b"DOC", 78, 80, M, 1], // 79
    [b"MOA", 78, 81, O, 5], // 80
    [b"DTM", 78, 82, O, 5], // 81
    [b"RFF", 78, 83, O, 5], // 82
    [b"NAD", 78, 84, O, 2], // 83
    [b"CUX", 78, 87, O, 5], // 84 SG18
    [b"CUX", 84, 86, M, 1], // 85
    [b"DTM", 84, 87, O, 1], // 86
    [b"AJT", 78, 92, O, 100], // 87 SG19
    [b"AJT", 87, 89, M, 1], // 88
    [b"MOA", 87, 90, M, 1], // 89
    [b"RFF", 87, 91, O, 1], // 90
    [b"FTX", 87, 92, O, 5], // 91
    [b"DLI", 78, 105, O, 1000], // 92 SG20
    [b"DLI", 92, 94, M, 1], // 93
    [b"MOA", 92, 95, M, 5], // 94
    [b"PIA", 92, 96, O, 5], // 95
    [b"DTM", 92, 97, O, 5], // 96
    [b"CUX", 92, 100, O, 5], // 97 SG21
    [b"CUX", 97, 99, M, 1], // 98
    [b"DTM", 97, 100, O, 1], // 99
    [b"AJT", 92, 105, O, 10], // 100 SG22
    [b"AJT", 100, 102, M, 1], // 101
    [b"MOA", 100, 103, M, 1], // 102
    [b"RFF", 100, 104, O, 1], // 103
    [b"FTX", 100, 105, O, 5], // 104
    [b"GIS", 75, 108, O, 1], // 105 SG23
    [b"GIS", 105, 107, M, 1], // 106
    [b"MOA", 105, 108, O, 5], // 107
    [b"CNT", 0, 109, R, 5], // 108
    [b"AUT", 0, 112, O, 5], // 109 SG24
    [b"AUT", 109, 111, M, 1], // 110
    [b"DTM", 109, 112, R, 1], // 111
    [b"UNT", 0, 113, M, 1], // 112
];

// The table.
pub fn chart() -> &'static [Row]
    ensures { result.now ≡ PAYMUL }
{
    &CHART
}
