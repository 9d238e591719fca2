//! A full database of moving points.

ghost use Rattle.std.specs.Prelude.{◌≡◌, ◌+◌, ◌%◌};

use super::scene::Scene;
use std::alloc::{AllocError, Global};
use store::{Db, MOST_FEATURES, Op};
use tpoint::Id;

/// As many features as a database may have, each with the scene's sequence.
pub fn fleet(alloc: Global, scene: &Scene) -> Result<Db, AllocError> {
    let mut db = Db::new(alloc);
    for k in 0..MOST_FEATURES as u32 {
        let _ = db.apply(&put(scene, k)?)?;
    }
    Ok(db)
}

/// The operation that gives the feature at a place the scene's sequence.
pub fn put(scene: &Scene, place: u32) -> Result<Op, AllocError> {
    Ok(Op::Put(name(place), scene.feature.seq.clone()?))
}

/// The name at a place: two letters. Each of 256 places in succession has a name of its own.
pub fn name(place: u32) -> Id {
    Id::new(&[letter(place / 16), letter(place)]).unwrap()
}

/// One of the first sixteen letters.
pub fn letter(place: u32) -> u8
    ensures { result ≡ 97 + place % 16 }
{
    b'a' + (place % 16) as u8
}
