//! Operations on a full database.

ghost use Rattle.std.specs.Prelude.{◌<◌};
ghost use Rattle.tpoint.specs.Moving.{InBounds};

use super::fleet::{name, put};
use super::scene::{EVERY, START, Scene, instant};
use super::task::ApplyWork;
use std::alloc::AllocError;
use store::{Db, Op};
use tpoint::Point;

/// Carries out the round's operation, and tells one more than its reply's number.
pub fn reply_number(
    db: &mut Db,
    work: ApplyWork,
    scene: &Scene,
    round: u32,
) -> Result<u64, AllocError> {
    let op = op_of(work, scene, round)?;
    let reply = db.apply(&op)?;
    Ok(1 + u64::from(reply.code()))
}

/// What is done in a round.
fn op_of(work: ApplyWork, scene: &Scene, round: u32) -> Result<Op, AllocError> {
    match work {
        ApplyWork::Put => put(scene, round),
        ApplyWork::Append => {
            if round % 256 == 0 {
                return put(scene, round / 256);
            }
            let point = next_point(scene, round % 256);
            Ok(Op::append(name(round / 256), point).unwrap())
        }
        ApplyWork::Remove => {
            if round % 2 == 0 {
                return Ok(Op::Remove(name(round / 2)));
            }
            put(scene, round / 2)
        }
    }
}

/// A point some minutes after the last.
pub fn next_point(scene: &Scene, minutes: u32) -> Point
    requires { minutes < 256 }
    ensures { InBounds result }
{
    let extent = scene.extent;
    Point {
        t: instant(START + u64::from(extent) + u64::from(EVERY * minutes)),
        x: 0,
        y: 0,
    }
}
