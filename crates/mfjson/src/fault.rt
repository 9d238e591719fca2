//! Why bytes are no document.

ghost use Rattle.std.specs.Prelude.{◌≡◌};
ghost use Rattle.mfjson.specs.Faults.{code_of, index_of};
ghost use Rattle.mfjson.specs.declared.fault.MfFault.TheVariants.{Memory};

use std::alloc::{AllocError, AllocFailed};
use std::error::Error;
use std::fmt;

/// Why bytes are no document of a feature. Indices count from 0.
///
/// Of several faults the first below is told, and of its indices the lowest.
#[derive(Clone, Copy, Debug, Drop, PartialEq, Eq)]
pub enum MfFault {
    /// They are no JSON text: RFC 8259 in UTF-8, with arrays and objects nested at most 127 deep,
    /// and no number too large for a float.
    NotJson,
    /// The value isn't an object with exactly the members `type`, `id` and `temporalGeometry`.
    Members,
    /// The `type` isn't the text `Feature`.
    NotFeature,
    /// The `id` isn't a text that is an id.
    Id,
    /// The `temporalGeometry` isn't an object with exactly the members `type`, `datetimes`,
    /// `coordinates` and `interpolation`, its `type` isn't the text `MovingPoint`, or its
    /// `datetimes` or `coordinates` isn't an array.
    Geometry,
    /// The `interpolation` isn't one of the texts `Discrete`, `Step` and `Linear`.
    Interpolation,
    /// This element of `datetimes` isn't a text that `datetime_read` takes.
    Datetime(usize),
    /// This element of `coordinates` isn't an array of two whole numbers in range. A number with
    /// a fraction or an exponent, as `10.0`, isn't whole here, and `-0` isn't.
    Coordinates(usize),
    /// There are more of the one than of the other.
    Lengths,
    /// There are none.
    Empty,
    /// There are more than `MOST_POINTS`.
    TooMany,
    /// This datetime isn't later than the one before it.
    Order(usize),
    /// A growth was refused. It may come in the place of any other answer.
    Memory,
}

impl MfFault {
    /// Its number, from 1.
    pub fn code(self) -> u8
        ensures { result ≡ code_of self }
    {
        match self {
            MfFault::NotJson => 1,
            MfFault::Members => 2,
            MfFault::NotFeature => 3,
            MfFault::Id => 4,
            MfFault::Geometry => 5,
            MfFault::Interpolation => 6,
            MfFault::Datetime(_) => 7,
            MfFault::Coordinates(_) => 8,
            MfFault::Lengths => 9,
            MfFault::Empty => 10,
            MfFault::TooMany => 11,
            MfFault::Order(_) => 12,
            MfFault::Memory => 13,
        }
    }

    /// The index of the element that it tells of, where it tells of one.
    pub fn index(self) -> Option<usize>
        ensures { result ≡ index_of self }
    {
        match self {
            MfFault::Datetime(i) | MfFault::Coordinates(i) | MfFault::Order(i) => Some(i),
            _ => None,
        }
    }
}

impl fmt::Display for MfFault {
    ghost use Rattle.std.specs.Prelude.{Some};
    ghost use Rattle.mfjson.specs.Faults.{fault_text};

    ghost output = { λ fault. Some (fault_text fault) };

    fn fmt<W: fmt::Write>(&self, f: &mut fmt::Formatter<W>) -> fmt::Result {
        f.write_str(match *self {
            MfFault::NotJson => "the bytes are no JSON text",
            MfFault::Members => "the value hasn't exactly a feature's members",
            MfFault::NotFeature => "the type is not Feature",
            MfFault::Id => "the id is no id",
            MfFault::Geometry => "the geometry is no moving point's",
            MfFault::Interpolation => "the interpolation is unknown",
            MfFault::Datetime(i) => return write!(f, "datetime {i} is none"),
            MfFault::Coordinates(i) => return write!(
                f,
                "coordinates {i} are no whole numbers in range"
            ),
            MfFault::Lengths => "there are not as many datetimes as coordinates",
            MfFault::Empty => "there are no datetimes",
            MfFault::TooMany => "there are too many datetimes",
            MfFault::Order(i) => return write!(
                f,
                "datetime {i} is not later than the one before it"
            ),
            MfFault::Memory => "out of memory",
        })
    }
}

impl Error for MfFault {}

impl From<AllocError> for MfFault {
    ghost from_gives = { λ _ fault. fault ≡ Memory };

    fn from(_refused: AllocError) -> MfFault {
        MfFault::Memory
    }
}

impl<T: Drop> From<AllocFailed<T>> for MfFault {
    ghost from_gives = { λ _ fault. fault ≡ Memory };

    fn from(_refused: AllocFailed<T>) -> MfFault {
        MfFault::Memory
    }
}
