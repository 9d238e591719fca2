//! Features.

use tpoint::{Id, Seq};

/// A moving point with its name.
#[derive(Drop)]
pub struct Feature {
    pub id: Id,
    pub seq: Seq,
}
