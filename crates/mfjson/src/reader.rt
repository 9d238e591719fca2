//! Reading documents.

ghost use Rattle.std.specs.Prelude.{◌≡◌, ◌≢◌, ◌⊎◌, ◌↔◌, ℤ, ℕ, List, codes, length, map};
ghost use Rattle.std.specs.Prelude.{IsTrue, IsUtf8, IfOk, IfErr, MatchOption, MatchResult};
ghost use Rattle.serde_json.specs.Data.{Data, string, array, item, no_items};
ghost use Rattle.serde_json.specs.View.{view};
ghost use Rattle.tpoint.specs.Ids.{IsId};
ghost use Rattle.tpoint.specs.Interps.{interp_name};
ghost use Rattle.mfjson.specs.declared.feature.Feature.{Feature};
ghost use Rattle.mfjson.specs.Pairs.{Pairwise};
ghost use Rattle.mfjson.specs.Document.{IsDocumentOf, IsFeatureValue, SaysInstant, TextShows, member_count};
ghost use Rattle.mfjson.specs.Faults.{IsFaultOf, IsFirstBroken, HasFeatureMembers, IsInstantText};
ghost use Rattle.mfjson.specs.Faults.{IsMovingPoint, IsPlaceValue, SaysCoordinate, SaysCoordinates};
ghost use Rattle.mfjson.specs.Outline.{SaysThisId, HasLists, IsOutline, FailsFirst, AreTogether, list_fault};

use crate::tokens::feature_of_tokens;
use crate::{Feature, MfFault, datetime_read};
use json::Scratch;
use serde_json::{Category, Value};
use std::alloc::{AllocError, Global};
use tpoint::{Id, Instant, Interp, Point, Seq, SeqFault, is_coordinate};

/// The feature that the document stands for, or the first fault of the bytes.
///
/// `MfFault` says which fault comes when.
pub fn read(alloc: Global, bytes: &[u8]) -> Result<Feature, MfFault>
    ensures ok { IfOk result (λ f. IsDocumentOf bytes.now f) }
    ensures err { IfErr result (λ fault. IsFaultOf bytes.now fault) }
    // A document is read, and so is what `write` gives.
    ensures document { (f : Feature) → IsDocumentOf bytes.now f
        → (result ≡ Ok f) ⊎ (result ≡ Err MfFault.Memory) }
    // Bytes that are no text need no memory to be refused.
    ensures no_text { ¬ IsUtf8 bytes.now → result ≡ Err MfFault.NotJson }
{
    DocumentReader::new(alloc).read(alloc, bytes)
}

/// Reads many documents in turn, with the memory that the ones before needed.
///
/// What it reads depends on nothing that it has read before, so no clause speaks of what it holds.
#[derive(Drop)]
pub struct DocumentReader {
    scratch: Scratch,
}

impl DocumentReader {
    /// One that has read nothing yet.
    pub fn new(alloc: Global) -> DocumentReader {
        DocumentReader {
            scratch: Scratch::new(alloc),
        }
    }

    /// What `read` gives.
    pub fn read(&mut self, alloc: Global, bytes: &[u8]) -> Result<Feature, MfFault>
        ensures ok { IfOk result (λ f. IsDocumentOf bytes.now f) }
        ensures err { IfErr result (λ fault. IsFaultOf bytes.now fault) }
        ensures document { (f : Feature) → IsDocumentOf bytes.now f
            → (result ≡ Ok f) ⊎ (result ≡ Err MfFault.Memory) }
        ensures no_text { ¬ IsUtf8 bytes.now → result ≡ Err MfFault.NotJson }
    {
        // Nearly every document is read so, which is faster; the tree has the last word on the others.
        if let Some(feature) = feature_of_tokens(alloc, &mut self.scratch, bytes) {
            return Ok(feature);
        }
        read_tree(alloc, bytes)
    }
}

/// What `read` gives, by a tree of all that the text says.
fn read_tree(alloc: Global, bytes: &[u8]) -> Result<Feature, MfFault>
    ensures ok { IfOk result (λ f. IsDocumentOf bytes.now f) }
    ensures err { IfErr result (λ fault. IsFaultOf bytes.now fault) }
    ensures document { (f : Feature) → IsDocumentOf bytes.now f
        → (result ≡ Ok f) ⊎ (result ≡ Err MfFault.Memory) }
    ensures no_text { ¬ IsUtf8 bytes.now → result ≡ Err MfFault.NotJson }
{
    let value = value_of(alloc, bytes)?;
    feature_of(alloc, &value)
}

/// The value that the bytes are the JSON text of.
fn value_of(alloc: Global, bytes: &[u8]) -> Result<Value, MfFault>
    ensures ok { IfOk result (λ v. TextShows bytes.now (view v)) }
    ensures err { IfErr result (λ fault. fault ≢ MfFault.Memory
        → (fault ≡ MfFault.NotJson) × ((d : Data) → ¬ TextShows bytes.now d)) }
    ensures no_text { ¬ IsUtf8 bytes.now → result ≡ Err MfFault.NotJson }
{
    if let Err(_) = str::from_utf8(bytes) {
        return Err(MfFault::NotJson);
    }
    match Value::from_slice(alloc, bytes) {
        Ok(value) => Ok(value),
        Err(error) => match error.classify() {
            Category::Memory => Err(MfFault::Memory),
            _ => Err(MfFault::NotJson),
        },
    }
}

/// The feature that the value stands for.
fn feature_of(alloc: Global, value: &Value) -> Result<Feature, MfFault>
    ensures ok { IfOk result (λ f. IsFeatureValue (view value.now) f) }
    ensures err { IfErr result (λ fault. fault ≢ MfFault.Memory
        → IsFirstBroken (view value.now) fault) }
{
    let (id, interp, datetimes, coordinates) = match outline_of(value) {
        Ok(outline) => outline,
        Err(fault) => return Err(fault),
    };
    let instants = instants_of(alloc, datetimes)?;
    let places = places_of(alloc, coordinates)?;
    if instants.len() != places.len() {
        return Err(MfFault::Lengths);
    }
    let points = points_of(alloc, &instants, &places)?;
    match Seq::new(interp, points) {
        Ok(seq) => Ok(Feature { id, seq }),
        Err(fault) => Err(list_fault(fault)),
    }
}

/// What is found in a value before its lists are read: its id, its interpolation, its `datetimes`
/// and its `coordinates`.
fn outline_of(value: &Value) -> Result<(Id, Interp, &[Value], &[Value]), MfFault>
    ensures { MatchResult result
        (λ o. IsOutline (view value.now) o.0 o.1 (map view o.2.now) (map view o.3.now))
        (λ fault. IsFirstBroken (view value.now) fault) }
{
    if !has_feature_members(value) {
        return Err(MfFault::Members);
    }
    if !is_text(&value["type"], "Feature") {
        return Err(MfFault::NotFeature);
    }
    let Some(id) = id_of(&value["id"]) else {
        return Err(MfFault::Id);
    };
    let geometry = &value["temporalGeometry"];
    let Some((datetimes, coordinates)) = lists_of(geometry) else {
        return Err(MfFault::Geometry);
    };
    let Some(interp) = interp_of(&geometry["interpolation"]) else {
        return Err(MfFault::Interpolation);
    };
    Ok((id, interp, datetimes, coordinates))
}

/// Whether the value is an object with exactly the members of a feature.
fn has_feature_members(value: &Value) -> bool
    ensures { IsTrue result ↔ HasFeatureMembers (view value.now) }
{
    member_count(value) == 3
        && value.get("type").is_some()
        && value.get("id").is_some()
        && value.get("temporalGeometry").is_some()
}

/// How many members the value has.
#[tactic(auto, using(crate::proofs::Counts::counting))]
fn member_count(value: &Value) -> usize
    ensures { result ≡ member_count (view value.now) }
{
    match value.as_object() {
        Some(members) => members.len(),
        None => 0,
    }
}

/// Whether the value is this text.
fn is_text(value: &Value, text: &str) -> bool
    ensures { IsTrue result ↔ (view value.now ≡ string text.now) }
{
    match value.as_str() {
        Some(found) => found == text,
        None => false,
    }
}

/// The id that the value is the text of.
fn id_of(value: &Value) -> Option<Id>
    ensures { MatchOption result ((id : List ℕ) → ¬ SaysThisId (view value.now) id)
        (λ id. SaysThisId (view value.now) id) }
{
    Id::new(value.as_str()?.as_bytes())
}

/// The `datetimes` and the `coordinates` of a geometry.
fn lists_of(geometry: &Value) -> Option<(&[Value], &[Value])>
    ensures { MatchOption result (¬ IsMovingPoint (view geometry.now))
        (λ lists. HasLists (view geometry.now) (map view lists.0.now) (map view lists.1.now)) }
{
    let kind = geometry.get("type")?;
    let datetimes = geometry.get("datetimes")?.as_array()?;
    let coordinates = geometry.get("coordinates")?.as_array()?;
    let _interpolation = geometry.get("interpolation")?;
    if member_count(geometry) != 4 || !is_text(kind, "MovingPoint") {
        return None;
    }
    Some((datetimes.as_slice(), coordinates.as_slice()))
}

/// The interpolation of this name.
fn interp_of(value: &Value) -> Option<Interp>
    ensures { MatchOption result ((i : Interp) → view value.now ≢ string (interp_name i))
        (λ i. view value.now ≡ string (interp_name i)) }
{
    Interp::from_name(value.as_str()?)
}

/// The instants of these datetimes.
fn instants_of(alloc: Global, datetimes: &[Value]) -> Result<Vec<Instant>, MfFault>
    ensures { MatchResult result
        (λ instants. Pairwise SaysInstant (map view datetimes.now) instants.items)
        (λ fault. fault ≢ MfFault.Memory → (i : ℕ) × (fault ≡ MfFault.Datetime i)
        × FailsFirst IsInstantText (map view datetimes.now) i) }
{
    let mut instants = Vec::with_capacity(alloc, datetimes.len())?;
    for (i, datetime) in datetimes.iter().enumerate() {
        let Some(instant) = instant_of(datetime) else {
            return Err(MfFault::Datetime(i));
        };
        instants.push(instant)?;
    }
    Ok(instants)
}

/// The instant of a datetime.
fn instant_of(datetime: &Value) -> Option<Instant>
    ensures { (t : ℕ) → SaysInstant (view datetime.now) t ↔ (result ≡ Some t) }
{
    datetime_read(datetime.as_str()?.as_bytes())
}

/// The x and the y of these coordinates.
fn places_of(alloc: Global, coordinates: &[Value]) -> Result<Vec<(i64, i64)>, MfFault>
    ensures { MatchResult result
        (λ places. Pairwise SaysCoordinates (map view coordinates.now) places.items)
        (λ fault. fault ≢ MfFault.Memory → (i : ℕ) × (fault ≡ MfFault.Coordinates i)
        × FailsFirst IsPlaceValue (map view coordinates.now) i) }
{
    let mut places = Vec::with_capacity(alloc, coordinates.len())?;
    for (i, pair) in coordinates.iter().enumerate() {
        let Some(place) = place_of(pair) else {
            return Err(MfFault::Coordinates(i));
        };
        places.push(place)?;
    }
    Ok(places)
}

/// The x and the y of an array of both.
fn place_of(value: &Value) -> Option<(i64, i64)>
    ensures { MatchOption result (¬ IsPlaceValue (view value.now))
        (λ p. SaysCoordinates (view value.now) p) }
{
    let (x, y) = pair_of(value)?;
    Some((coordinate_of(x)?, coordinate_of(y)?))
}

/// The elements of an array of two.
fn pair_of(value: &Value) -> Option<(&Value, &Value)>
    ensures { MatchOption result
        ((d e : Data) → view value.now ≢ array (item d (item e no_items)))
        (λ p. view value.now ≡ array (item (view p.0.now) (item (view p.1.now) no_items))) }
{
    let pair = value.as_array()?;
    if pair.len() != 2 {
        return None;
    }
    Some((&pair[0], &pair[1]))
}

/// The coordinate that the value is.
fn coordinate_of(value: &Value) -> Option<i64>
    ensures { (z : ℤ) → SaysCoordinate (view value.now) z ↔ (result ≡ Some z) }
{
    let z = value.as_i64()?;
    if is_coordinate(z) { Some(z) } else { None }
}

/// Each instant with its place.
pub(crate) fn points_of(
    alloc: Global,
    instants: &[Instant],
    places: &[(i64, i64)],
) -> Result<Vec<Point>, AllocError>
    requires { length instants.now ≡ length places.now }
    ensures { IfOk result (λ points. AreTogether points.items instants.now places.now) }
{
    let mut points = Vec::with_capacity(alloc, instants.len())?;
    for i in 0..instants.len() {
        let (x, y) = places[i];
        points.push(Point {
            t: instants[i],
            x,
            y,
        })?;
    }
    Ok(points)
}

/// What a list of points that is no sequence says of the document.
fn list_fault(fault: SeqFault) -> MfFault
    ensures { result ≡ list_fault fault }
{
    match fault {
        SeqFault::Empty => MfFault::Empty,
        SeqFault::TooMany => MfFault::TooMany,
        SeqFault::NotIncreasing(i) => MfFault::Order(i),
        SeqFault::Range(i) => MfFault::Coordinates(i),
    }
}
