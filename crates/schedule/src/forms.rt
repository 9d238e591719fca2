//! What single words stand for, and words that belong together.

ghost use Rattle.std.specs.Prelude.{◌≡◌, ◌≢◌, ◌≤◌, ◌^◌, ◌↔◌, ◌++◌, ℕ, ℤ, Bool, List, ◌∷◌, length, MatchOption, IsTrue, codes};
ghost use Rattle.std.specs.Str.Parse.{AllDigits, digits_value};
ghost use Rattle.tpoint.specs.Extents.{Span, Area};
ghost use Rattle.tpoint.specs.Ids.{IsId};
ghost use Rattle.mfjson.specs.Datetime.{ReadsAs};
ghost use Rattle.schedule.specs.Extents.{IsBegin, IsEnd, IsPeriod, IsRect};
ghost use Rattle.schedule.specs.Numbers.{WritesNumber, IsCoordinate, IsPlain, IsSize};
ghost use Rattle.stable.specs.declared.scripted.Failing.{Failing};
ghost use Rattle.schedule.specs.Keywords.{failing_text};
ghost use Rattle.schedule.specs.declared.forms.TheConstants.{SIZES, SMALL_DIGITS};
ghost use Rattle.schedule.specs.Table.{IsNode, IsClient, IsRequestNumber, IsFrameNumber};

use super::words::{PeriodWords, RectWords};
use mfjson::datetime_read;
use sessions::Number;
use stable::Failing;
use tpoint::{FURTHEST, Id, Instant, Period, Rect};
use wire::{NodeId, Nodes};

/// Coordinates are below this number, and so are their negatives.
const SIZES: u64 = FURTHEST as u64 + 1;

/// Numbers of at most this many digits are below 2^64.
const SMALL_DIGITS: usize = 19;

/// The node that the word names.
pub fn node(nodes: Nodes, word: &[u8]) -> Option<NodeId>
    ensures { MatchOption result ((node : ℕ) → ¬ IsNode nodes word.now node)
        (IsNode nodes word.now) }
{
    NodeId::new(below(nodes.count().into(), word)? as u8)
}

/// The client that the word names.
pub fn client(word: &[u8]) -> Option<u8>
    ensures { MatchOption result ((client : ℕ) → ¬ IsClient word.now client) (IsClient word.now) }
{
    Some(below(256, word)? as u8)
}

/// The number of a request that the word writes.
pub fn request_number(word: &[u8]) -> Option<Number>
    ensures { MatchOption result ((number : ℕ) → ¬ IsRequestNumber word.now number)
        (IsRequestNumber word.now) }
{
    Number::new(decimal(word)?)
}

/// How a put or a reading of the keys is to fail, as the word says.
pub fn failing(word: &[u8]) -> Option<Failing>
    ensures { MatchOption result ((failing : Failing) → word.now ≢ failing_text failing)
        (λ failing. word.now ≡ failing_text failing) }
{
    match word {
        b"old" => Some(Failing::Old),
        b"new" => Some(Failing::New),
        b"read" => Some(Failing::Read),
        _ => None,
    }
}

/// The id that the word is.
pub fn id(word: &[u8]) -> Option<Id>
    ensures { MatchOption result (¬ IsId word.now) (λ id. (id ≡ word.now) × IsId word.now) }
{
    Id::new(word)
}

/// The instant that the word is the datetime of.
pub fn instant(word: &[u8]) -> Option<Instant>
    ensures { MatchOption result ((t : ℕ) → ¬ ReadsAs word.now t) (ReadsAs word.now) }
{
    datetime_read(word)
}

/// The period from one datetime to another, each of which is in it unless its mark says otherwise.
pub(crate) fn period(words: PeriodWords) -> Option<Period>
    ensures { MatchOption result
        ((period : Span) → ¬ IsPeriod words.entry.begin.now words.entry.end.now period)
        (IsPeriod words.entry.begin.now words.entry.end.now) }
{
    let (begin, begin_in) = period_begin(words.begin)?;
    let (end, end_in) = period_end(words.end)?;
    Period::with(begin, end, begin_in, end_in)
}

/// Where a period begins, and whether that instant is in it.
pub fn period_begin(word: &[u8]) -> Option<(Instant, bool)>
    ensures { MatchOption result ((t : ℕ) (is_in : Bool) → ¬ IsBegin word.now t is_in)
        (λ begin. IsBegin word.now begin.0 begin.1) }
{
    if let Some(text) = after(word, b"[") {
        return Some((instant(text)?, true));
    }
    match after(word, b"(") {
        Some(text) => Some((instant(text)?, false)),
        None => Some((instant(word)?, true)),
    }
}

/// Where a period ends, and whether that instant is in it.
pub fn period_end(word: &[u8]) -> Option<(Instant, bool)>
    ensures { MatchOption result ((t : ℕ) (is_in : Bool) → ¬ IsEnd word.now t is_in)
        (λ end. IsEnd word.now end.0 end.1) }
{
    if let Some(text) = before(word, b"]") {
        return Some((instant(text)?, true));
    }
    match before(word, b")") {
        Some(text) => Some((instant(text)?, false)),
        None => Some((instant(word)?, true)),
    }
}

/// What stands behind the mark with which the word begins.
fn after<'a>(word: &'a [u8], mark: &[u8]) -> Option<&'a [u8]>
    ensures { MatchOption result ((text : List ℕ) → word.now ≢ mark.now ++ text)
        (λ text. word.now ≡ mark.now ++ text.now) }
{
    word.strip_prefix(mark)
}

/// What stands before the mark with which the word ends.
fn before<'a>(word: &'a [u8], mark: &[u8]) -> Option<&'a [u8]>
    ensures { MatchOption result ((text : List ℕ) → word.now ≢ text ++ mark.now)
        (λ text. word.now ≡ text.now ++ mark.now) }
{
    word.strip_suffix(mark)
}

/// The rectangle between the bounds.
pub(crate) fn rect(words: RectWords) -> Option<Rect>
    ensures { MatchOption result
        ((rect : Area) → ¬ IsRect words.entry.x0.now words.entry.y0.now words.entry.x1.now words.entry.y1.now rect)
        (IsRect words.entry.x0.now words.entry.y0.now words.entry.x1.now words.entry.y1.now) }
{
    let x0 = coordinate(words.x0)?;
    let y0 = coordinate(words.y0)?;
    let x1 = coordinate(words.x1)?;
    let y1 = coordinate(words.y1)?;
    Rect::new(x0, y0, x1, y1)
}

/// The coordinate in range that the word writes, if it writes one.
pub fn coordinate(word: &[u8]) -> Option<i64>
    ensures { MatchOption result ((value : ℤ) → ¬ IsCoordinate word.now value)
        (IsCoordinate word.now) }
{
    match after_minus(word) {
        Some(digits) => {
            let size = size_of_coordinate(digits)?;
            // A minus sign stands before no zero.
            if size == 0 { None } else { Some(-size) }
        }
        None => size_of_coordinate(word),
    }
}

/// What follows the minus sign with which the word begins.
fn after_minus(word: &[u8]) -> Option<&[u8]>
    ensures { MatchOption result ((digits : List ℕ) → word.now ≢ 45 ∷ digits)
        (λ digits. word.now ≡ 45 ∷ digits.now) }
{
    match word {
        [b'-', digits @ ..] => Some(digits),
        _ => None,
    }
}

/// The number up to `FURTHEST` that the word writes, if it writes one.
fn size_of_coordinate(word: &[u8]) -> Option<i64>
    ensures { MatchOption result ((size : ℕ) → ¬ WritesNumber 0 SIZES word.now size)
        (IsSize SIZES word.now) }
{
    Some(below(SIZES, word)? as i64)
}

/// The number below the limit that the word writes, if it writes one.
pub fn below(limit: u64, word: &[u8]) -> Option<u64>
    ensures { MatchOption result ((value : ℕ) → ¬ WritesNumber 0 limit word.now value)
        (WritesNumber 0 limit word.now) }
{
    let value = decimal(word)?;
    if value < limit { Some(value) } else { None }
}

/// The number below 2^64 that the word writes, if it writes one.
pub fn decimal(word: &[u8]) -> Option<u64>
    ensures { MatchOption result ((value : ℕ) → ¬ IsFrameNumber word.now value)
        (IsFrameNumber word.now) }
{
    // Both ways would take needless zeros, and `parse` a plus too.
    if !is_plain(word) {
        return None;
    }
    if word.len() <= SMALL_DIGITS {
        return small_decimal(word);
    }
    match str::from_utf8(word) {
        Ok(text) => text.parse().ok(),
        Err(_) => None,
    }
}

/// The value of so few digits, if all bytes are digits. It has no need of tests against overflow.
fn small_decimal(word: &[u8]) -> Option<u64>
    requires { length word.now ≤ SMALL_DIGITS }
    ensures { MatchOption result (¬ AllDigits 10 word.now)
        (λ value. AllDigits 10 word.now × (value ≡ digits_value 10 word.now)) }
{
    let mut value = 0;
    for byte in word {
        if !byte.is_ascii_digit() {
            return None;
        }
        value = value * 10 + u64::from(*byte - b'0');
    }
    Some(value)
}

/// Whether the word is not empty and begins neither with a plus nor with a needless zero.
fn is_plain(word: &[u8]) -> bool
    ensures { IsTrue result ↔ IsPlain word.now }
{
    match word {
        [] | [b'+', ..] => false,
        [b'0', rest @ ..] => rest.is_empty(),
        _ => true,
    }
}
