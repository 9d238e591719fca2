//! Queries of a full database.

use super::fleet::name;
use super::numbers::{area_of, corner_of, instant_of};
use super::scene::Scene;
use super::task::QueryWork;
use std::alloc::{AllocError, Global};
use store::{Db, Query};

/// The length of the text that the round's query is answered.
pub fn answer_length(
    alloc: Global,
    db: &Db,
    work: QueryWork,
    scene: &Scene,
    round: u32,
) -> Result<u64, AllocError> {
    let query = query_of(work, scene, round);
    Ok(db.answer(alloc, &query)?.len() as u64)
}

/// What is asked in a round.
fn query_of(work: QueryWork, scene: &Scene, round: u32) -> Query {
    let id = name(round);
    match work {
        QueryWork::At => Query::At(id, instant_of(scene, round)),
        QueryWork::Cut => Query::Cut(id, scene.middle),
        QueryWork::CutWhole => Query::Cut(id, scene.whole),
        QueryWork::Ever => Query::Ever(id, scene.middle, *corner_of(scene, round)),
        QueryWork::EverWhole => Query::Ever(id, scene.whole, *corner_of(scene, round)),
        QueryWork::Always => Query::Always(id, scene.middle, *area_of(scene, round)),
        QueryWork::Within => Query::Within(scene.middle, *area_of(scene, round)),
        QueryWork::Get => Query::Get(id),
        QueryWork::Count => Query::Count,
    }
}
