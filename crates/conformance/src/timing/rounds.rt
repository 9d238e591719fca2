//! The rounds of a work with a moving point.

ghost use Rattle.std.specs.Prelude.{IfErr};
ghost use Rattle.conformance.specs.Faults.{IsUntimed};

use super::documents::checked_length;
use super::execution::outcome_number;
use super::fleet::fleet;
use super::messages::{envelope, frame_length, slot_number};
use super::numbers::{always_number, cut_number, datetime_number, ever_number, value_number};
use super::operations::reply_number;
use super::queries::answer_length;
use super::scene::Scene;
use super::task::{ApplyWork, PointWork, QueryWork, SceneWork, Sent};
use crate::fault::Fault;
use mfjson::write;
use sessions::Machine;
use std::alloc::{AllocError, Global};
use wire::encode;

/// The sum of what the rounds answer, each as a number, in 64 bits; Usage where the work can't be done on so many
/// points.
pub fn scene_total(alloc: Global, work: SceneWork, scene: &Scene, rounds: u32) -> Result<u64, Fault>
    ensures { IfErr result IsUntimed }
{
    match work {
        SceneWork::Point(work) => Ok(point_total(alloc, work, scene, rounds)?),
        SceneWork::Query(work) => Ok(query_total(alloc, work, scene, rounds)?),
        SceneWork::Apply(work) => Ok(apply_total(alloc, work, scene, rounds)?),
        SceneWork::Check => Ok(check_total(alloc, scene, rounds)?),
        SceneWork::Execute => execute_total(alloc, scene, rounds),
        SceneWork::Encode(sent) => encode_total(alloc, sent, rounds),
        SceneWork::Decode(sent) => decode_total(alloc, sent, rounds),
    }
}

fn point_total(
    alloc: Global,
    work: PointWork,
    scene: &Scene,
    rounds: u32,
) -> Result<u64, AllocError> {
    let mut total = 0u64;
    for round in 0..rounds {
        let number = point_number(alloc, work, scene, round)?;
        total = total.wrapping_add(number);
    }
    Ok(total)
}

fn query_total(
    alloc: Global,
    work: QueryWork,
    scene: &Scene,
    rounds: u32,
) -> Result<u64, AllocError> {
    let db = fleet(alloc, scene)?;
    let mut total = 0u64;
    for round in 0..rounds {
        let number = answer_length(alloc, &db, work, scene, round)?;
        total = total.wrapping_add(number);
    }
    Ok(total)
}

fn apply_total(
    alloc: Global,
    work: ApplyWork,
    scene: &Scene,
    rounds: u32,
) -> Result<u64, AllocError> {
    let mut db = fleet(alloc, scene)?;
    let mut total = 0u64;
    for round in 0..rounds {
        let number = reply_number(&mut db, work, scene, round)?;
        total = total.wrapping_add(number);
    }
    Ok(total)
}

fn check_total(alloc: Global, scene: &Scene, rounds: u32) -> Result<u64, AllocError> {
    let document = write(alloc, &scene.feature)?;
    let mut total = 0u64;
    for _ in 0..rounds {
        let number = checked_length(alloc, &document)?;
        total = total.wrapping_add(number);
    }
    Ok(total)
}

fn execute_total(alloc: Global, scene: &Scene, rounds: u32) -> Result<u64, Fault>
    ensures { IfErr result IsUntimed }
{
    let mut machine = Machine::new(alloc);
    let mut total = 0u64;
    for round in 0..rounds {
        let number = outcome_number(&mut machine, scene, round)?;
        total = total.wrapping_add(number);
    }
    Ok(total)
}

fn encode_total(alloc: Global, sent: Sent, rounds: u32) -> Result<u64, Fault>
    ensures { IfErr result IsUntimed }
{
    let envelope = envelope(alloc, sent)?;
    let mut total = 0u64;
    for _ in 0..rounds {
        let number = frame_length(alloc, &envelope)?;
        total = total.wrapping_add(number);
    }
    Ok(total)
}

fn decode_total(alloc: Global, sent: Sent, rounds: u32) -> Result<u64, Fault>
    ensures { IfErr result IsUntimed }
{
    let envelope = envelope(alloc, sent)?;
    let frame = encode(alloc, &envelope)?;
    let mut total = 0u64;
    for _ in 0..rounds {
        let number = slot_number(alloc, &frame)?;
        total = total.wrapping_add(number);
    }
    Ok(total)
}

/// What a round asks of a moving point, as a number. No two rounds in succession ask the same of a
/// predicate or of a value, so that none of them can be left out.
fn point_number(
    alloc: Global,
    work: PointWork,
    scene: &Scene,
    round: u32,
) -> Result<u64, AllocError> {
    match work {
        PointWork::ValueAt => Ok(value_number(scene, round)),
        PointWork::EverMiddle => Ok(ever_number(scene, &scene.middle, round)),
        PointWork::EverWhole => Ok(ever_number(scene, &scene.whole, round)),
        PointWork::AlwaysMiddle => Ok(always_number(scene, &scene.middle, round)),
        PointWork::AlwaysWhole => Ok(always_number(scene, &scene.whole, round)),
        PointWork::CutMiddle => cut_number(alloc, scene, &scene.middle),
        PointWork::CutWhole => cut_number(alloc, scene, &scene.whole),
        PointWork::Write => Ok(write(alloc, &scene.feature)?.len() as u64),
        PointWork::Datetimes => Ok(datetime_number(round)),
    }
}
