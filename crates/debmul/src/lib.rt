// The DEBMUL chart: a constant table, one row per segment and group.
#![tactic(auto)]

ghost use Rattle.std.specs.Prelude.{◌≡◌};
ghost use Rattle.debmul.specs.Table.{DEBMUL};

use table::{OUTSIDE, Row, rows};

pub const ROWS: usize = 125;

// The rows that a rule speaks of.
pub const BGM: usize = 2;

pub const LIN: usize = 17;

pub const LINE_DTM: usize = 18;

pub const SEQ: usize = 43;

pub const SEQUENCE_RFF: usize = 48;

pub const UNT: usize = 124;

// The rows are those of the guide's section 2.2, numbered from 1; row 0 is the message itself, a group opened by its UNH.
static CHART: [Row; ROWS] = rows![
    [b"UNH", OUTSIDE, 125, M, 1], // 0 the message
    [b"UNH", 0, 2, M, 1], // 1
    [b"BGM", 0, 3, M, 1], // 2
    [b"DTM", 0, 4, M, 1], // 3
    [b"BUS", 0, 5, N, 1], // 4
    [b"RFF", 0, 8, D, 2], // 5 SG1
    [b"RFF", 5, 7, M, 1], // 6
    [b"DTM", 5, 8, O, 1], // 7
    [b"FII", 0, 12, O, 5], // 8 SG2
    [b"FII", 8, 10, M, 1], // 9
    [b"CTA", 8, 11, N, 1], // 10
    [b"COM", 8, 12, N, 5], // 11
    [b"NAD", 0, 16, O, 3], // 12 SG3
    [b"NAD", 12, 14, M, 1], // 13
    [b"CTA", 12, 15, O, 1], // 14
    [b"COM", 12, 16, O, 5], // 15
    [b"LIN", 0, 120, M, 9999], // 16 SG4
    [b"LIN", 16, 18, M, 1], // 17
    [b"DTM", 16, 19, R, 3], // 18
    [b"BUS", 16, 20, O, 1], // 19
    [b"MOA", 16, 21, M, 2], // 20
    [b"RFF", 16, 24, M, 3], // 21 SG5
    [b"RFF", 21, 23, M, 1], // 22
    [b"DTM", 21, 24, O, 1], // 23
    [b"FII", 16, 28, M, 1], // 24 SG6
    [b"FII", 24, 26, M, 1], // 25
    [b"CTA", 24, 27, N, 1], // 26
    [b"COM", 24, 28, N, 5], // 27
    [b"FCA", 16, 42, D, 5], // 28 SG7
    [b"FCA", 28, 30, M, 1], // 29
    [b"MOA", 28, 31, D, 2], // 30
    [b"ALC", 28, 42, D, 6], // 31 SG8
    [b"ALC", 31, 33, M, 1], // 32
    [b"PCD", 31, 34, O, 1], // 33
    [b"MOA", 31, 35, R, 2], // 34
    [b"CUX", 31, 36, N, 1], // 35
    [b"DTM", 31, 37, N, 1], // 36
    [b"TAX", 31, 42, O, 5], // 37 SG9
    [b"TAX", 37, 39, M, 1], // 38
    [b"MOA", 37, 40, O, 2], // 39
    [b"CUX", 37, 41, D, 1], // 40
    [b"DTM", 37, 42, O, 1], // 41
    [b"SEQ", 16, 120, R, 9999], // 42 SG10
    [b"SEQ", 42, 44, M, 1], // 43
    [b"DTM", 42, 45, O, 3], // 44
    [b"BUS", 42, 46, O, 1], // 45
    [b"FII", 42, 47, M, 2], // 46
    [b"RFF", 42, 50, D, 5], // 47 SG11
    [b"RFF", 47, 49, M, 1], // 48
    [b"DTM", 47, 50, O, 1], // 49
    [b"PAI", 42, 53, O, 1], // 50 SG12
    [b"PAI", 50, 52, M, 1], // 51
    [b"FTX", 50, 53, O, 1], // 52
    [b"MOA", 42, 58, M, 4], // 53 SG13
    [b"MOA", 53, 55, M, 1], // 54
    [b"CUX", 53, 56, D, 1], // 55
    [b"DTM", 53, 57, O, 2], // 56
    [b"RFF", 53, 58, D, 1], // 57
    [b"NAD", 42, 62, O, 3], // 58 SG14
    [b"NAD", 58, 60, M, 1], // 59
    [b"CTA", 58, 61, O, 1], // 60
    [b"COM", 58, 62, O, 5], // 61
    [b"INP", 42, 66, O, 3], // 62 SG15
    [b"INP", 62, 64, M, 1], // 63
    [b"FTX", 62, 65, O, 1], // 64
    [b"DTM", 62, 66, O, 2], // 65
    [b"GIS", 42, 73, O, 10], // 66 SG16
    [b"GIS", 66, 68, M, 1], // 67
    [b"MOA", 66, 69, O, 1], // 68
    [b"LOC", 66, 70, O, 2], // 69
    [b"NAD", 66, 71, O, 1], // 70
    [b"RCS", 66, 72, O, 1], // 71
    [b"FTX", 66, 73, O, 10], // 72
    [b"FCA", 42, 87, D, 5], // 73 SG17
    [b"FCA", 73, 75, M, 1], // 74
    [b"MOA", 73, 76, D, 2], // 75
    [b"ALC", 73, 87, O, 20], // 76 SG18
    [b"ALC", 76, 78, M, 1], // 77
    [b"PCD", 76, 79, O, 1], // 78
    [b"MOA", 76, 80, R, 2], // 79
    [b"CUX", 76, 81, N, 1], // 80
    [b"DTM", 76, 82, N, 1], // 81
    [b"TAX", 76, 87, O, 5], // 82 SG19
    [b"TAX", 82, 84, M, 1], // 83
    [b"MOA", 82, 85, O, 2], // 84
    [b"CUX", 82, 86, O, 1], // 85
    [b"DTM", 82, 87, O, 1], // 86
    [b"PRC", 42, 120, O, 1], // 87 SG20
    [b"PRC", 87, 89, M, 1], // 88
    [b"FTX", 87, 90, D, 5], // 89
    [b"DOC", 87, 117, D, 9999], // 90 SG21
    [b"DOC", 90, 92, M, 1], // 91
    [b"MOA", 90, 93, O, 5], // 92
    [b"DTM", 90, 94, O, 5], // 93
    [b"RFF", 90, 95, O, 5], // 94
    [b"NAD", 90, 96, O, 2], // 95
    [b"CUX", 90, 99, O, 5], // 96 SG22
    [b"CUX", 96, 98, M, 1], // 97
    [b"DTM", 96, 99, O, 1], // 98
    [b"AJT", 90, 104, O, 100], // 99 SG23
    [b"AJT", 99, 101, M, 1], // 100
    [b"MOA", 99, 102, O, 1], // 101
    [b"RFF", 99, 103, O, 1], // 102
    [b"FTX", 99, 104, O, 5], // 103
    [b"DLI", 90, 117, O, 9999], // 104 SG24
    [b"DLI", 104, 106, M, 1], // 105
    [b"MOA", 104, 107, O, 5], // 106
    [b"PIA", 104, 108, O, 5], // 107
    [b"DTM", 104, 109, O, 5], // 108
    [b"CUX", 104, 112, O, 5], // 109 SG25
    [b"CUX", 109, 111, M, 1], // 110
    [b"DTM", 109, 112, O, 1], // 111
    [b"AJT", 104, 117, O, 10], // 112 SG26
    [b"AJT", 112, 114, M, 1], // 113
    [b"MOA", 112, 115, O, 1], // 114
    [b"RFF", 112, 116, O, 1], // 115
    [b"FTX", 112, 117, O, 5], // 116
    [b"GIS", 87, 120, O, 1], // 117 SG27
    [b"GIS", 117, 119, M, 1], // 118
    [b"MOA", 117, 120, O, 5], // 119
    [b"CNT", 0, 121, R, 5], // 120
    [b"AUT", 0, 124, O, 5], // 121 SG28
    [b"AUT", 121, 123, M, 1], // 122
    [b"DTM", 121, 124, R, 1], // 123
    [b"UNT", 0, 125, M, 1], // 124
];

// The table.
pub fn chart() -> &'static [Row]
    ensures { result.now ≡ DEBMUL }
{
    &CHART
}
