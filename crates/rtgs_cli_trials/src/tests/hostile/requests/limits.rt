//! Numbers at a limit of some form, or just beyond it, and words that are of some form, or nearly.
use super::super::bytes::part;

// Numbers at a limit of some form, or just beyond it, and what is nearly a number: 32 of them. The first is empty.
const LIMITS: &str =
    " 0 -0 00 1 -1 +1 007 1.0 1e2 1e400 0x10 255 256 500 501 8192 65536 65537 999999999 1000000000 \
    2147483648 4294967296 100000000000000 100000000000001 1000000000000 1000000000001 1000000000000001 \
    9223372036854775808 18446744073709551615 18446744073709551616 \
    99999999999999999999999999999999999999999999999999";

/// One of the 32 numbers.
pub fn limit(place: usize) -> &'static str {
    part(LIMITS, " ", place % 32)
}

// Words that are of some form, or nearly: codes, references and dates, as JSON and as fields of a file. There are 32.
const WORDS: &str = r#""ALFA"
"BETA"
"ZETA"
"beta"
"AL"
"A-1"
"A-2"
"P-1"
""
"2024-03-05"
"2024-03-09"
"2024-02-30"
"1999-12-31"
"\u0041-1"
"\ud800"
ALFA
BETA
ZETA
A-1
"A,1"
3
100
500
-151
1000000000000000
100000000000001
0
null
true
[]
{}
{"amount":1}"#;

/// One of the 32 words. The first 13 are texts of JSON.
pub fn word(place: usize) -> &'static str {
    part(WORDS, "\n", place % 32)
}
