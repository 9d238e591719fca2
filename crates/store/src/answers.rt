//! The texts of answers.

ghost use Rattle.std.specs.Prelude.{◌≡◌, ◌↔◌, ◌++◌, codes, decimal, map, Some, IsTrue, IfOk, MatchOption, OnOk};
ghost use Rattle.std.specs.List.{flat_map};
ghost use Rattle.std.specs.Option.{option_copied};
ghost use Rattle.predicates.specs.Predicates.{IsEver};
ghost use Rattle.store.specs.Answers.{OfKnown, SaysValue, SaysCut, SaysDocument, SaysWithin};
ghost use Rattle.store.specs.Answers.{AreIdsOf, value_text, fix_text, mark_text, part_text, id_text, tri_text};
ghost use Rattle.store.specs.Indexed.{IndexIsKept};

use crate::line::{LONGEST_FIX, write_fix, write_place};
use crate::stored_feature::StoredFeature;
use itoa::Buffer;
use mfjson::Feature;
use predicates::Tri;
use restrict::{Cut, cut};
use std::alloc::{AllocError, Global};
use textbuf::write_text;
use timeindex::TimeIndex;
use tpoint::{Frac, Id, Instant, Period, Rect};

/// The bytes for which room is made for each listed instant of a cut. Most take fewer; where they take more, the text grows.
const USUAL_FIX: usize = 40;

/// Where the feature is at an instant.
pub(crate) fn at_text(
    alloc: Global,
    found: Option<&Feature>,
    t: Instant,
) -> Result<Vec<u8>, AllocError>
    ensures { IfOk result (λ text.
        OfKnown (option_copied found.entry) (λ f. SaysValue f.seq t text.items) text.items) }
{
    let Some(feature) = found else {
        return absent(alloc);
    };
    match feature.seq.value_at(t).value {
        Some((x, y)) => place_text(alloc, x, y),
        None => Vec::from_slice(alloc, b"at none"),
    }
}

/// A position, as it is told of an instant.
fn place_text(alloc: Global, x: Frac, y: Frac) -> Result<Vec<u8>, AllocError>
    ensures { IfOk result (λ text. text.items ≡ codes "at " ++ value_text (Some (x, y))) }
{
    let mut line = [0; LONGEST_FIX];
    let start = write_place(x, y, &mut line, LONGEST_FIX);
    let start = write_text(b"at ", &mut line, start);
    Vec::from_slice(alloc, &line[start..])
}

/// What the feature does in a period.
pub(crate) fn cut_text(
    alloc: Global,
    found: Option<&Feature>,
    period: &Period,
) -> Result<Vec<u8>, AllocError>
    ensures { IfOk result (λ text.
        OfKnown (option_copied found.entry) (λ f. SaysCut f.seq period.now text.items) text.items) }
{
    let Some(feature) = found else {
        return absent(alloc);
    };
    match cut(alloc, &feature.seq, period)? {
        Some(part) => part_text(alloc, &part),
        None => Vec::from_slice(alloc, b"cut none"),
    }
}

/// A word, and after it what is answered of the feature.
pub(crate) fn tri_answer(
    alloc: Global,
    word: &[u8],
    answer: Option<Tri>,
) -> Result<Vec<u8>, AllocError>
    ensures { IfOk result (λ text. MatchOption answer (text.items ≡ codes "absent")
        (λ tri. text.items ≡ word.now ++ tri_text tri)) }
{
    let Some(tri) = answer else {
        return absent(alloc);
    };
    joined(alloc, word, tri_text(tri).as_bytes())
}

/// Which features are ever in a rectangle.
pub(crate) fn within_text(
    alloc: Global,
    features: &[StoredFeature],
    index: &TimeIndex,
    period: &Period,
    area: &Rect,
) -> Result<Vec<u8>, AllocError>
    requires { IndexIsKept features.now index.now }
    ensures { IfOk result (λ text. SaysWithin features.now period.now area.now text.items) }
{
    let ids = ids_within(alloc, features, index, period, area)?;
    let count = ids.len();
    let mut text = format!(in alloc; "within {count}")?.into_bytes();
    push_ids(&mut text, &ids)?;
    text.shrink_to_fit();
    Ok(text)
}

/// The feature's canonical document.
pub(crate) fn document_text(alloc: Global, found: Option<&Feature>) -> Result<Vec<u8>, AllocError>
    ensures { IfOk result (λ text.
        OfKnown (option_copied found.entry) (λ f. SaysDocument f text.items) text.items) }
{
    let Some(feature) = found else {
        return absent(alloc);
    };
    let mut text = mfjson::write_after(alloc, b"get ", feature)?;
    text.shrink_to_fit();
    Ok(text)
}

/// How many features there are.
pub(crate) fn count_text(alloc: Global, count: usize) -> Result<Vec<u8>, AllocError>
    ensures { IfOk result (λ text. text.items ≡ codes "count " ++ decimal count) }
{
    joined(alloc, b"count ", Buffer::new().format(count).as_bytes())
}

/// What is said of an id that no feature has.
fn absent(alloc: Global) -> Result<Vec<u8>, AllocError>
    ensures { IfOk result (λ text. text.items ≡ codes "absent") }
{
    Vec::from_slice(alloc, b"absent")
}

/// A text of two parts.
fn joined(alloc: Global, first: &[u8], last: &[u8]) -> Result<Vec<u8>, AllocError>
    ensures { IfOk result (λ text. text.items ≡ first.now ++ last.now) }
{
    let mut text = Vec::with_capacity(alloc, first.len() + last.len())?;
    text.extend_from_slice(first)?;
    text.extend_from_slice(last)?;
    Ok(text)
}

fn tri_text(answer: Tri) -> &'static str
    ensures { result.now ≡ tri_text answer }
{
    match answer {
        Tri::Yes => "yes",
        Tri::No => "no",
        Tri::None => "none",
    }
}

/// A cut with its listed instants.
fn part_text(alloc: Global, part: &Cut) -> Result<Vec<u8>, AllocError>
    ensures { IfOk result (λ text. text.items
        ≡ part_text part.now.interp part.now.begin_in part.now.end_in part.now.points.items) }
{
    let count = part.points.len();
    let mut text = Vec::with_capacity(alloc, count.saturating_add(1).saturating_mul(USUAL_FIX))?;
    text.extend_from_slice(b"cut ")?;
    text.extend_from_slice(part.interp.name().as_bytes())?;
    text.push(b' ')?;
    text.extend_from_slice(Buffer::new().format(count).as_bytes())?;
    text.extend_from_slice(mark_text(part.begin_in, part.end_in))?;
    push_fixes(&mut text, &part.points)?;
    // Runs keep what was answered, and most of these texts take some half of their room.
    text.shrink_to_fit();
    Ok(text)
}

/// What tells which ends aren't in a cut.
fn mark_text(begin_in: bool, end_in: bool) -> &'static [u8]
    ensures { result.now ≡ mark_text begin_in end_in }
{
    match (begin_in, end_in) {
        (true, true) => b"",
        (true, false) => b" [)",
        (false, true) => b" (]",
        (false, false) => b" ()",
    }
}

/// Adds the listed instants of a cut, each after a bar.
fn push_fixes(text: &mut Vec<u8>, fixes: &[(Instant, Frac, Frac)]) -> Result<(), AllocError>
    ensures { OnOk result (text.new.items ≡ text.old.items ++ flat_map fix_text fixes.now) }
{
    let mut line = [0; LONGEST_FIX];
    for fix in fixes {
        push_fix(text, fix, &mut line)?;
    }
    Ok(())
}

/// Adds a listed instant. It is written into the line first, and moved at once.
fn push_fix(
    text: &mut Vec<u8>,
    fix: &(Instant, Frac, Frac),
    line: &mut [u8; LONGEST_FIX],
) -> Result<(), AllocError>
    ensures { OnOk result (text.new.items ≡ text.old.items ++ fix_text fix.now) }
{
    let start = write_fix(fix, line);
    text.extend_from_slice(&line[start..])
}

/// The ids of the features that are ever in a rectangle, in the features' order. Only those are
/// asked of which the index tells that they are there in the period.
fn ids_within(
    alloc: Global,
    features: &[StoredFeature],
    index: &TimeIndex,
    period: &Period,
    area: &Rect,
) -> Result<Vec<Id>, AllocError>
    requires { IndexIsKept features.now index.now }
    ensures { IfOk result (λ ids.
        AreIdsOf (λ f. IsEver f.seq period.now area.now Tri.Yes) features.now ids.items) }
{
    let mut ids = Vec::new(alloc);
    for place in 0..features.len() {
        let held = &features[place];
        let feature = held.feature();
        feature.seq.values_lie_in_its_span();
        if !index.overlaps(place, period) {
            continue;
        }
        if !is_within(held, period, area) {
            continue;
        }
        ids.push(feature.id)?;
    }
    Ok(ids)
}

/// Whether the feature is ever in a rectangle.
fn is_within(held: &StoredFeature, period: &Period, area: &Rect) -> bool
    ensures { IsTrue result ↔ IsEver held.now.seq period.now area.now Tri.Yes }
{
    if held.stays_out_of(area) {
        return false;
    }
    match held.ever(period, area) {
        Tri::Yes => true,
        Tri::No | Tri::None => false,
    }
}

/// Adds the ids, each after a blank.
fn push_ids(text: &mut Vec<u8>, ids: &[Id]) -> Result<(), AllocError>
    ensures { OnOk result (text.new.items ≡ text.old.items ++ flat_map id_text ids.now) }
{
    for id in ids {
        text.push(b' ')?;
        text.extend_from_slice(id.bytes())?;
    }
    Ok(())
}
