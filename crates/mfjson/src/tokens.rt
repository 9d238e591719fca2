//! Documents read from a list of their tokens, with no tree.
//!
//! What this way doesn't read is left to the tree, which tells each fault: a member that comes twice is read there too.

ghost use Rattle.std.specs.Prelude.{◌≡◌, ◌==◌, ◌<◌, ◌≤◌, ◌^◌, codes, length, slice_index, Some, IsTrue, IfSome};
ghost use Rattle.std.specs.Fn.{FnReturnsAt};
ghost use Rattle.fast_float.specs.Text.{scan, digits_of, IsInteger};
ghost use Rattle.serde_json.specs.Read.{number_of};
ghost use Rattle.tpoint.specs.Interps.{interp_name};
ghost use Rattle.tpoint.specs.Moving.{IsValid};
ghost use Rattle.mfjson.specs.Datetime.{IsDateText};
ghost use Rattle.mfjson.specs.Document.{IsDocumentOf, IsFeatureValue, SaysInstant};
ghost use Rattle.mfjson.specs.Faults.{SaysCoordinate, SaysCoordinates};
ghost use Rattle.mfjson.specs.Outline.{SaysThisId, AreTogether};
ghost use Rattle.mfjson.specs.Tokens.{TokensSay, SaysEach, IsReadEach, SaysCourse, HasMember, HasMembers, IsText, IsWhole, IsSigned};

use crate::Feature;
use crate::datetime::LastDay;
use crate::reader::points_of;
use fast_float::Numeral;
use json::{Element, Scratch, Tape};
use std::alloc::Global;
use tpoint::{Id, Instant, Interp, Seq, is_coordinate};

/// Of so many digits each number fits 64 bits, with either sign.
const SMALL_DIGITS: usize = 18;

/// Where a moving point was, and when.
#[derive(Drop)]
struct Course {
    interp: Interp,
    instants: Vec<Instant>,
    places: Vec<(i64, i64)>,
}

/// The feature that the document stands for, or None where the tree has to tell.
pub(crate) fn feature_of_tokens(
    alloc: Global,
    scratch: &mut Scratch,
    bytes: &[u8],
) -> Option<Feature>
    ensures { IfSome result (λ f. IsDocumentOf bytes.now f) }
{
    let Ok(text) = simdutf8::compat::from_utf8(bytes) else {
        return None;
    };
    let Ok(tape) = Tape::parse(text, scratch, Vec::new(alloc)) else {
        return None;
    };
    feature_in(alloc, &tape.root())
}

/// The feature that the value stands for.
fn feature_in(alloc: Global, root: &Element<'_, '_>) -> Option<Feature>
    ensures { IfSome result (λ f. TokensSay 4 IsFeatureValue root.now f) }
{
    if !is_of_type(root, "Feature", 3) {
        return None;
    }
    let id = id_in(root)?;
    let course = course_in(alloc, root)?;
    let seq = seq_of(alloc, &course)?;
    Some(Feature { id, seq })
}

/// Whether the value is an object of this type and so many members.
fn is_of_type(value: &Element<'_, '_>, kind: &str, count: usize) -> bool
    ensures members { IsTrue result → HasMembers count value.now }
    ensures kind { IsTrue result → HasMember 0 IsText (codes "type") value.now kind.now }
{
    let Some(found) = text_at(value, "type") else {
        return false;
    };
    found == kind && has_members(value, count)
}

/// Whether the value is an object of so many members.
fn has_members(value: &Element<'_, '_>, count: usize) -> bool
    ensures { IsTrue result → HasMembers count value.now }
{
    let Some(mut members) = value.members() else {
        return false;
    };
    for _ in 0..count {
        let Some(_) = members.next() else {
            return false;
        };
    }
    let None = members.next() else {
        return false;
    };
    true
}

/// The text that the value is.
fn text_in<'a>(value: &Element<'_, 'a>) -> Option<&'a str>
    ensures { IfSome result (λ text. TokensSay 0 IsText value.now text.now) }
{
    value.as_str()
}

/// The text that a member of the value is.
fn text_at<'a>(value: &Element<'_, 'a>, name: &str) -> Option<&'a str>
    ensures { IfSome result (λ text. HasMember 0 IsText name.now value.now text.now) }
{
    text_in(&value.get(name)?)
}

/// The id of a feature.
fn id_in(root: &Element<'_, '_>) -> Option<Id>
    ensures { IfSome result (λ id. HasMember 0 SaysThisId (codes "id") root.now id) }
{
    Id::new(text_at(root, "id")?.as_bytes())
}

/// The sequence of the points of a course.
fn seq_of(alloc: Global, course: &Course) -> Option<Seq>
    ensures { IfSome result (λ s. (s.interp ≡ course.now.interp) × IsValid s
        × AreTogether s.points course.now.instants.items course.now.places.items) }
{
    if course.instants.len() != course.places.len() {
        return None;
    }
    let Ok(points) = points_of(alloc, &course.instants, &course.places) else {
        return None;
    };
    match Seq::new(course.interp, points) {
        Ok(seq) => Some(seq),
        Err(_) => None,
    }
}

/// The course that a feature's geometry says.
fn course_in(alloc: Global, root: &Element<'_, '_>) -> Option<Course>
    ensures { IfSome result (λ c. HasMember 3 (λ d _. SaysCourse d c.interp c.instants.items c.places.items)
        (codes "temporalGeometry") root.now c) }
{
    let geometry = root.get("temporalGeometry")?;
    if !is_of_type(&geometry, "MovingPoint", 4) {
        return None;
    }
    let interp = interp_in(&geometry)?;
    let instants = instants_in(alloc, &geometry)?;
    let places = places_in(alloc, &geometry)?;
    Some(Course {
        interp,
        instants,
        places,
    })
}

/// The interpolation of a geometry.
fn interp_in(geometry: &Element<'_, '_>) -> Option<Interp>
    ensures { IfSome result (λ i. HasMember 0 IsText (codes "interpolation") geometry.now (interp_name i)) }
{
    Interp::from_name(text_at(geometry, "interpolation")?)
}

/// What is read of the elements of an array, one after another.
fn each_in<T: Drop, F: Fn(&Element<'_, '_>) -> Option<T>>(
    alloc: Global,
    list: &Element<'_, '_>,
    read: F,
) -> Option<Vec<T>>
    requires { F.IsAlwaysCallable read }
    ensures { IfSome result (λ xs. IsReadEach (λ item x. FnReturnsAt F.Fn read item (Some x)) list.now xs.items) }
{
    let mut items = list.items()?;
    let mut values = Vec::new(alloc);
    while let Some(item) = items.next() {
        let value = read(&item)?;
        let Ok(()) = values.push(value) else {
            return None;
        };
    }
    Some(values)
}

/// The instants of a geometry's datetimes.
fn instants_in(alloc: Global, geometry: &Element<'_, '_>) -> Option<Vec<Instant>>
    ensures { IfSome result (λ ts. HasMember 1 (SaysEach SaysInstant) (codes "datetimes") geometry.now ts.items) }
{
    each_instant_in(alloc, &geometry.get("datetimes")?)
}

/// The instants that the elements of an array are datetimes of.
fn each_instant_in(alloc: Global, list: &Element<'_, '_>) -> Option<Vec<Instant>>
    ensures { IfSome result (λ ts. IsReadEach (λ item t. TokensSay 0 SaysInstant item t) list.now ts.items) }
{
    let mut items = list.items()?;
    let mut instants = Vec::new(alloc);
    let mut last = LastDay::new();
    while let Some(item) = items.next() {
        let instant = instant_in(&mut last, &item)?;
        let Ok(()) = instants.push(instant) else {
            return None;
        };
    }
    Some(instants)
}

/// The instant that the value is a datetime of.
fn instant_in(last: &mut LastDay, value: &Element<'_, '_>) -> Option<Instant>
    requires { IsDateText last.old.date last.old.day }
    ensures value { IfSome result (λ t. TokensSay 0 SaysInstant value.now t) }
    ensures last { IsDateText last.new.date last.new.day }
{
    last.datetime_read(text_in(value)?.as_bytes())
}

/// The x and the y of each of a geometry's coordinates.
fn places_in(alloc: Global, geometry: &Element<'_, '_>) -> Option<Vec<(i64, i64)>>
    ensures { IfSome result (λ cs. HasMember 2 (SaysEach SaysCoordinates) (codes "coordinates") geometry.now cs.items) }
{
    each_in(alloc, &geometry.get("coordinates")?, place_in)
}

/// The x and the y of an array of both.
fn place_in(value: &Element<'_, '_>) -> Option<(i64, i64)>
    ensures { IfSome result (λ p. TokensSay 1 SaysCoordinates value.now p) }
{
    let mut items = value.items()?;
    let x = items.next()?;
    let y = items.next()?;
    let None = items.next() else {
        return None;
    };
    Some((coordinate_in(&x)?, coordinate_in(&y)?))
}

/// The coordinate that the value is.
fn coordinate_in(value: &Element<'_, '_>) -> Option<i64>
    ensures { IfSome result (λ z. TokensSay 0 SaysCoordinate value.now z) }
{
    let z = whole_of(value.as_number()?.as_bytes())?;
    if is_coordinate(z) { Some(z) } else { None }
}

/// The number that a whole number's text spells; `-0` is none.
fn whole_of(text: &[u8]) -> Option<i64>
    ensures { IfSome result (λ z. IsWhole (number_of text.now) z) }
{
    if !has_minus(text) {
        return signed_of(false, text);
    }
    let z = signed_of(true, &text[1..])?;
    if z < 0 { Some(z) } else { None }
}

/// The number that the digits spell, with its sign.
#[inline(always)]
fn signed_of(negative: bool, digits: &[u8]) -> Option<i64>
    ensures { IfSome result (λ z. IsSigned negative (scan digits.now) z) }
{
    if digits.len() > SMALL_DIGITS {
        return long_signed_of(negative, digits);
    }
    let size = small_number(digits)? as i64;
    Some(if negative { -size } else { size })
}

/// The same of any count of digits.
#[cold]
#[inline(never)]
fn long_signed_of(negative: bool, digits: &[u8]) -> Option<i64>
    ensures { IfSome result (λ z. IsSigned negative (scan digits.now) z) }
{
    Numeral::scan(digits).to_i64(negative)
}

/// The number that so few digits spell. It has no need of tests against overflow.
#[inline(always)]
fn small_number(digits: &[u8]) -> Option<u64>
    requires { length digits.now ≤ SMALL_DIGITS }
    ensures { IfSome result (λ n. IsInteger (scan digits.now) × (n ≡ digits_of (scan digits.now)) × (n < 10 ^ SMALL_DIGITS)) }
{
    if digits.is_empty() {
        return None;
    }
    let mut n = 0;
    for byte in digits {
        if !byte.is_ascii_digit() {
            return None;
        }
        n = n * 10 + u64::from(*byte - b'0');
    }
    Some(n)
}

fn has_minus(text: &[u8]) -> bool
    ensures value { result ≡ (slice_index text.now 0 == 45) }
    ensures len { IsTrue result → 0 < length text.now }
{
    !text.is_empty() && text[0] == b'-'
}
