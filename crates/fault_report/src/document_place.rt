//! Where in a document its fault is, and what was wanted there.

use crate::json_place::Spot;
use crate::place::Place;
use mfjson::MfFault;
use serde_json::{Category, Value};
use std::alloc::{AllocError, Global};

/// The members of a document.
const MEMBERS: &[&str] = &["type", "id", "temporalGeometry"];

/// The members of its geometry.
const GEOMETRY: &[&str] = &["type", "datetimes", "coordinates", "interpolation"];

/// Where the document has the fault.
pub(crate) fn document_place(
    alloc: Global,
    bytes: &[u8],
    fault: MfFault,
) -> Result<Place, AllocError> {
    let root = Spot { text: bytes, at: 0 };
    let geometry = member_or(alloc, root, "temporalGeometry")?;
    match fault {
        MfFault::NotJson => json_fault_place(alloc, bytes),
        MfFault::Members => object_place(alloc, root, "a document", MEMBERS),
        MfFault::NotFeature => member_place(alloc, root, "type", "\"Feature\" is wanted"),
        MfFault::Id => member_place(
            alloc,
            root,
            "id",
            "an id is wanted: 1 to 64 ASCII letters, digits, `-`, `_`, `.`",
        ),
        MfFault::Geometry => geometry_place(alloc, geometry),
        MfFault::Interpolation => member_place(
            alloc,
            geometry,
            "interpolation",
            "\"Discrete\", \"Step\" or \"Linear\" is wanted",
        ),
        MfFault::Datetime(index) => element_place(
            alloc,
            geometry,
            "datetimes",
            index,
            "a datetime is wanted, such as \"2020-01-01T00:00:00Z\" or with .000, from 1970 to 9999, a day of the calendar",
        ),
        MfFault::Coordinates(index) => element_place(
            alloc,
            geometry,
            "coordinates",
            index,
            "two whole millimetres are wanted, such as [0,-10], -10000000000 to 10000000000, without point or exponent, and no -0",
        ),
        MfFault::Lengths => member_place(
            alloc,
            geometry,
            "coordinates",
            "as many coordinates as datetimes are wanted",
        ),
        MfFault::Empty => member_place(alloc, geometry, "datetimes", "one is wanted at least"),
        MfFault::TooMany => member_place(alloc, geometry, "datetimes", "1024 are wanted at most"),
        MfFault::Order(index) => element_place(
            alloc,
            geometry,
            "datetimes",
            index,
            "a later datetime is wanted than the one before it",
        ),
        MfFault::Memory => Err(AllocError),
    }
}

/// This value, where this was wanted.
fn place_of(alloc: Global, spot: Spot<'_>, wanted: &str) -> Result<Place, AllocError> {
    let wanted = String::from_str(alloc, wanted)?;
    Ok(Place {
        at: spot.at,
        wanted,
    })
}

/// The member of this name, or the object where it has none.
fn member_or<'a>(alloc: Global, object: Spot<'a>, name: &str) -> Result<Spot<'a>, AllocError> {
    match object.member(alloc, name)? {
        Some(member) => Ok(member),
        None => Ok(object),
    }
}

/// The member of this name, where this was wanted.
fn member_place(
    alloc: Global,
    object: Spot<'_>,
    name: &str,
    wanted: &str,
) -> Result<Place, AllocError> {
    let member = member_or(alloc, object, name)?;
    place_of(alloc, member, wanted)
}

/// The element of this index of the list of this name, where this was wanted.
fn element_place(
    alloc: Global,
    geometry: Spot<'_>,
    name: &str,
    index: usize,
    wanted: &str,
) -> Result<Place, AllocError> {
    let list = member_or(alloc, geometry, name)?;
    match list.element(alloc, index)? {
        Some(element) => place_of(alloc, element, wanted),
        None => place_of(alloc, list, wanted),
    }
}

/// What an object has too much, or that it is none or lacks a member.
fn object_place(
    alloc: Global,
    object: Spot<'_>,
    what: &str,
    names: &[&str],
) -> Result<Place, AllocError> {
    if !object.begins_with(b'{') {
        let wanted = format!(in alloc; "{what} is an object")?;
        return Ok(Place {
            at: object.at,
            wanted,
        });
    }
    if let Some(stranger) = object.stranger(alloc, names)? {
        let wanted = format!(in alloc; "{what} has no member of this name")?;
        return Ok(Place {
            at: stranger.at,
            wanted,
        });
    }
    for name in names {
        if let None = object.member(alloc, name)? {
            let wanted = format!(in alloc; "{what} lacks the member `{name}`")?;
            return Ok(Place {
                at: object.at,
                wanted,
            });
        }
    }
    place_of(alloc, object, "an object is wanted")
}

/// What is wrong with a geometry.
fn geometry_place(alloc: Global, geometry: Spot<'_>) -> Result<Place, AllocError> {
    if !has_members(alloc, geometry)? {
        return object_place(alloc, geometry, "`temporalGeometry`", GEOMETRY);
    }
    let kind = member_or(alloc, geometry, "type")?;
    if !kind.is_written(b"\"MovingPoint\"") {
        return place_of(alloc, kind, "\"MovingPoint\" is wanted");
    }
    let datetimes = member_or(alloc, geometry, "datetimes")?;
    if !datetimes.begins_with(b'[') {
        return place_of(alloc, datetimes, "an array of datetimes is wanted");
    }
    member_place(
        alloc,
        geometry,
        "coordinates",
        "an array of coordinates is wanted",
    )
}

/// Whether the value is an object with a geometry's members and no other.
fn has_members(alloc: Global, geometry: Spot<'_>) -> Result<bool, AllocError> {
    if let Some(_) = geometry.stranger(alloc, GEOMETRY)? {
        return Ok(false);
    }
    for name in GEOMETRY {
        if let None = geometry.member(alloc, name)? {
            return Ok(false);
        }
    }
    Ok(true)
}

/// From where on the bytes are no JSON text.
fn json_fault_place(alloc: Global, bytes: &[u8]) -> Result<Place, AllocError> {
    if let Err(error) = str::from_utf8(bytes) {
        let wanted = String::from_str(alloc, "a JSON text is UTF-8")?;
        return Ok(Place {
            at: error.valid_up_to(),
            wanted,
        });
    }
    match Value::from_slice(alloc, bytes) {
        Ok(_) => place_of(alloc, Spot { text: bytes, at: 0 }, "a JSON text is wanted"),
        Err(error) => match error.classify() {
            Category::Memory => Err(AllocError),
            Category::Eof => {
                let wanted = String::from_str(alloc, "the text ends before its value does")?;
                Ok(Place {
                    at: bytes.len(),
                    wanted,
                })
            }
            _ => {
                let wanted = String::from_str(
                    alloc,
                    "no JSON text goes on so, nests more than 127 deep or has a number beyond a float's",
                )?;
                Ok(Place {
                    at: offset_of(bytes, error.line(), error.column()),
                    wanted,
                })
            }
        },
    }
}

/// How many bytes come before this column, from 1, of this line, from 1.
fn offset_of(bytes: &[u8], line: usize, column: usize) -> usize {
    let mut start = 0usize;
    for text in bytes
        .split(|byte| *byte == b'\n')
        .take(line.saturating_sub(1))
    {
        start = start.saturating_add(text.len()).saturating_add(1);
    }
    start.saturating_add(column.saturating_sub(1))
}
