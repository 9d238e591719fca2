//! Datetimes, from RFC 3339 and the calendar. Texts that are none, and documents with their faults in words, are lines of `conformance`'
//! input.

use mfjson::{datetime_read, datetime_text};
use tpoint::Instant;

// a text, and its milliseconds since 1970-01-01T00:00:00.000Z
const READ: [(&str, i64); 12] = [
    ("1970-01-01T00:00:00.000Z", 0),
    ("1970-01-01T00:00:00Z", 0),
    ("1970-01-01T00:00:00.001Z", 1),
    ("1985-04-12T23:20:50.520Z", 482_196_050_520),
    ("1990-12-31T23:59:59.000Z", 662_687_999_000),
    ("2000-02-29T00:00:00Z", 951_782_400_000),
    ("2020-01-01T00:00:00.000Z", 1_577_836_800_000),
    ("2020-01-01T00:00:03Z", 1_577_836_803_000),
    ("2020-02-29T23:59:59.999Z", 1_583_020_799_999),
    ("2020-03-01T00:00:00.000Z", 1_583_020_800_000),
    ("2100-02-28T23:59:59.999Z", 4_107_542_399_999),
    ("9999-12-31T23:59:59.999Z", 253_402_300_799_999),
];

#[test]
fn datetimes(rt: HostRuntime) {
    for &(text, ms) in &READ {
        assert!(rt; is_read_and_written(text, ms), "{text}");
    }
}

/// Whether the text is read as this instant, which is written so where the text has all its digits.
fn is_read_and_written(text: &str, ms: i64) -> bool {
    let Some(t) = Instant::new(ms) else {
        return false;
    };
    let written = datetime_text(t);
    let same = text.len() < 24 || written.as_slice() == text.as_bytes();
    same && datetime_read(text.as_bytes()) == Some(t)
}
