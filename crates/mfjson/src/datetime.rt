//! Datetimes: the texts of instants.

ghost use Rattle.std.specs.Prelude.{◌≡◌, ◌+◌, ◌*◌, ◌/◌, ◌%◌, ◌<◌, ◌≤◌, ◌^◌, ◌↔◌, ℕ, List, ◌++◌, codes, length, pos, ◌≤ℤ◌, Some, IfSome};
ghost use Rattle.jiff_core.specs.Date.{epoch_day};
ghost use Rattle.mfjson.specs.Digits.{digits, IsNumber, AreNumbers};
ghost use Rattle.mfjson.specs.Datetime.{date_text, clock_text, IsDateText, IsClockText, IsSecondText, IsDatetime, ReadsAs};

use jiff_core::civil::Date;
use tpoint::Instant;

/// The datetime text of an instant, `YYYY-MM-DDThh:mm:ss.fffZ`.
pub fn datetime_text(t: Instant) -> [u8; 24]
    ensures text { IsDatetime result t }
    ensures only { (text : List ℕ) → IsDatetime text t → text ≡ result }
    ensures of_no_other { (u : ℕ) → ReadsAs result u → u ≡ t }
{
    let ms = t.ms().unsigned_abs();
    let seconds = ms / 1000;
    let date = date_of(seconds / 86_400);
    let year = year_of(date);
    let month = u32::from(date.month);
    let day = u32::from(date.day);
    let second = (seconds % 86_400) as u32;
    let milli = (ms % 1000) as u32;
    text_of(year, month, day, second, milli)
}

/// The instant of a datetime text, or None where the text is none.
///
/// It takes what `datetime_text` writes and, of a whole second, also `YYYY-MM-DDThh:mm:ssZ`.
pub fn datetime_read(text: &[u8]) -> Option<Instant>
    ensures { (t : ℕ) → ReadsAs text.now t ↔ (result ≡ Some t) }
{
    LastDay::new().datetime_read(text)
}

/// A date `YYYY-MM-DD` and its day, counted from 1970-01-01: those of the datetime that was read last.
///
/// Most datetimes in a row are of one day. Where the bytes of the date are the same no calendar is asked.
#[derive(Drop)]
pub(crate) struct LastDay {
    date: [u8; 10],
    day: u32,
    ghost bound: { day ≤ 2932896 },
}

impl LastDay {
    /// The first day of all.
    pub(crate) fn new() -> LastDay
        ensures { IsDateText result.date result.day }
    {
        LastDay {
            date: *b"1970-01-01",
            day: 0,
        }
    }

    /// The instant of a datetime text, as `datetime_read` says.
    pub(crate) fn datetime_read(&mut self, text: &[u8]) -> Option<Instant>
        requires { IsDateText self.old.date self.old.day }
        ensures exact { (t : ℕ) → ReadsAs text.now t ↔ (result ≡ Some t) }
        ensures last { IsDateText self.new.date self.new.day }
    {
        match text.len() {
            20 => {
                if text[19] != b'Z' {
                    return None;
                }
                instant(self.second_of(&text[0..19])?, 0)
            }
            24 => {
                if text[19] != b'.' || text[23] != b'Z' {
                    return None;
                }
                let second = self.second_of(&text[0..19])?;
                instant(second, number(&text[20..23])?)
            }
            _ => None,
        }
    }

    /// The second, counted from 1970-01-01T00:00:00Z, of a text `YYYY-MM-DDThh:mm:ss`.
    fn second_of(&mut self, text: &[u8]) -> Option<u64>
        requires length { length text.now ≡ 19 }
        requires last { IsDateText self.old.date self.old.day }
        ensures exact { (second : ℕ) → IsSecondText text.now second ↔ (result ≡ Some second) }
        ensures bound { IfSome result (λ second. second < 253402300800) }
        ensures last { IsDateText self.new.date self.new.day }
    {
        if text[10] != b'T' {
            return None;
        }
        let day = self.day_of(&text[0..10])?;
        let second = second_of_day(&text[11..19])?;
        Some(u64::from(day) * 86_400 + u64::from(second))
    }

    /// The day of a date, which is the last one from then on.
    fn day_of(&mut self, date: &[u8]) -> Option<u32>
        requires length { length date.now ≡ 10 }
        requires last { IsDateText self.old.date self.old.day }
        ensures exact { (day : ℕ) → IsDateText date.now day ↔ (result ≡ Some day) }
        ensures bound { IfSome result (λ day. day ≤ 2932896) }
        ensures last { IsDateText self.new.date self.new.day }
    {
        if date == self.date.as_slice() {
            return Some(self.day);
        }
        let day = day_number(date)?;
        *self = LastDay::of(date, day);
        Some(day)
    }

    fn of(text: &[u8], day: u32) -> LastDay
        requires length { length text.now ≡ 10 }
        requires bound { day ≤ 2932896 }
        ensures date { result.date ≡ text.now }
        ensures day { result.day ≡ day }
    {
        let mut date = [0; 10];
        date.copy_from_slice(text);
        LastDay { date, day }
    }
}

/// The instant so many seconds and milliseconds after 1970-01-01T00:00:00Z.
fn instant(second: u64, milli: u32) -> Option<Instant>
    requires in_time { second < 253402300800 }
    requires in_second { milli < 1000 }
    ensures { result ≡ Some (second * 1000 + milli) }
{
    Instant::new((second * 1000 + u64::from(milli)) as i64)
}

/// The date of a day, counted from 1970-01-01.
fn date_of(day: u64) -> Date
    requires { day ≤ 2932896 }
    ensures { epoch_day result ≡ pos day }
{
    Date::from_unix_epoch_day(day as i64).unwrap()
}

/// The year of a date that is not before 1970.
fn year_of(date: Date) -> u32
    requires { pos 0 ≤ℤ epoch_day date }
    ensures is { date.year ≡ pos result }
    ensures bound { result < 10000 }
{
    let year = date.year;
    if year >= 0 {
        year.unsigned_abs() as u32
    } else {
        0
    }
}

/// A date, a second of the day and a millisecond, spelled out.
fn text_of(year: u32, month: u32, day: u32, second: u32, milli: u32) -> [u8; 24]
    ensures { result ≡ date_text year month day
        ++ (codes "T" ++ (clock_text second ++ ((codes "." ++ digits 3 milli) ++ codes "Z"))) }
{
    let hour = second / 3600;
    let minute = second / 60 % 60;
    let second = second % 60;
    [
        digit(year / 10 / 10 / 10),
        digit(year / 10 / 10),
        digit(year / 10),
        digit(year),
        b'-',
        digit(month / 10),
        digit(month),
        b'-',
        digit(day / 10),
        digit(day),
        b'T',
        digit(hour / 10),
        digit(hour),
        b':',
        digit(minute / 10),
        digit(minute),
        b':',
        digit(second / 10),
        digit(second),
        b'.',
        digit(milli / 10 / 10),
        digit(milli / 10),
        digit(milli),
        b'Z',
    ]
}

/// The last decimal digit.
fn digit(n: u32) -> u8
    ensures { result ≡ 48 + n % 10 }
{
    b'0' + (n % 10) as u8
}

/// The number that the digits spell. There are at most four.
fn number(text: &[u8]) -> Option<u32>
    requires { length text.now ≤ 4 }
    ensures exact { (n : ℕ) → IsNumber text.now n ↔ (result ≡ Some n) }
    ensures bound { IfSome result (λ n. n < 10 ^ length text.now) }
{
    let mut n = 0;
    for &byte in text {
        if !byte.is_ascii_digit() {
            return None;
        }
        n = n * 10 + u32::from(byte - b'0');
    }
    Some(n)
}

/// The numbers of three parts of a text with a mark between them. The last two are of two digits.
fn three_numbers(first: &[u8], rest: &[u8], mark: u8) -> Option<(u32, u32, u32)>
    requires first { length first.now ≤ 4 }
    requires rest { length rest.now ≡ 6 }
    ensures exact { (a b c : ℕ) → AreNumbers mark first.now rest.now a b c ↔ (result ≡ Some (a, b, c)) }
    ensures bound { IfSome result (λ n. (n.0 < 10 ^ length first.now) × (n.1 < 100) × (n.2 < 100)) }
{
    if rest[0] != mark || rest[3] != mark {
        return None;
    }
    let a = number(first)?;
    let b = number(&rest[1..3])?;
    let c = number(&rest[4..6])?;
    Some((a, b, c))
}

/// The day, counted from 1970-01-01, of a date `YYYY-MM-DD`.
fn day_number(text: &[u8]) -> Option<u32>
    requires { length text.now ≡ 10 }
    ensures exact { (day : ℕ) → IsDateText text.now day ↔ (result ≡ Some day) }
    ensures bound { IfSome result (λ day. day ≤ 2932896) }
{
    let (year, month, day) = three_numbers(&text[0..4], &text[4..10], b'-')?;
    let Ok(date) = Date::new(year as i16, month as i8, day as i8) else {
        return None;
    };
    let day = date.to_unix_epoch_day();
    if day < 0 {
        return None;
    }
    Some(day.unsigned_abs())
}

/// The second of the day at a time `hh:mm:ss`.
fn second_of_day(text: &[u8]) -> Option<u32>
    requires { length text.now ≡ 8 }
    ensures exact { (second : ℕ) → IsClockText text.now second ↔ (result ≡ Some second) }
    ensures bound { IfSome result (λ second. second < 86400) }
{
    let (hour, minute, second) = three_numbers(&text[0..2], &text[2..8], b':')?;
    if hour > 23 || minute > 59 || second > 59 {
        return None;
    }
    Some(hour * 3600 + minute * 60 + second)
}
