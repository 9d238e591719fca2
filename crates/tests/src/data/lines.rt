//! Texts at the ends of what 64 bits hold, against their digits.

use std::process::Abort;
use textbuf::{LONGEST_WIDE, write_wide};

// a number, and its text
const WIDE: [(i128, &str); 8] = [
    (0, "0"),
    (-1, "-1"),
    (9_223_372_036_854_775_807, "9223372036854775807"),
    (9_223_372_036_854_775_808, "9223372036854775808"),
    (-9_223_372_036_854_775_808, "-9223372036854775808"),
    (-9_223_372_036_854_775_809, "-9223372036854775809"),
    (
        170_141_183_460_469_231_731_687_303_715_884_105_727,
        "170141183460469231731687303715884105727",
    ),
    (
        -170_141_183_460_469_231_731_687_303_715_884_105_728,
        "-170141183460469231731687303715884105728",
    ),
];

#[test]
fn wide_numbers(rt: HostRuntime) {
    for &(n, want) in &WIDE {
        assert!(rt; is_written(n, want), "{want}");
    }
}

/// Whether a number is written so.
fn is_written(n: i128, want: &str) -> bool {
    let mut line = [0; LONGEST_WIDE];
    let start = write_wide(n, &mut line, LONGEST_WIDE);
    &line[start..] == want.as_bytes()
}
