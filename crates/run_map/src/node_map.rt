//! The map that a run leaves at a node.

ghost use Rattle.std.specs.Prelude.{◌≡◌, Some, IfErr, IfOk, MatchResult};
ghost use Rattle.world.specs.Seen.{world_of};
ghost use Rattle.run_map.specs.Endings.{fleet_at};
ghost use Rattle.run_map.specs.Maps.{IsAsked, IsMap, IsPage, IsTitle};
ghost use Rattle.run_map.specs.Refusals.{HasFleet, IsMapFault, IsNoFleet};

use crate::fault::MapFault;
use crate::survey::{Survey, survey_run};
use fleetmap::draw_fleet;
use mfjson::datetime_text;
use replay::Watch;
use schedule::ReplayFault;
use stable::{MemStable, Scripted, Stable};
use std::alloc::{AllocError, Global};
use std::io;
use store::Db;
use tpoint::Instant;

/// The map of a fleet, and how the run ended that left it.
#[derive(Drop)]
pub struct FleetMap {
    /// The picture, as an SVG text.
    pub text: Vec<u8>,
    /// The fault of the line that couldn't be done, with which the run ended.
    pub end: Option<ReplayFault>,
}

/// The map of the fleet as the node of this number has it where the run ends that the bytes spell: at its last line, or at the first that
/// can't be done, which the picture names then. It shows the instant `at`, or the last of any feature. The watch is told of each line
/// that is done.
pub fn map<W: Watch>(
    alloc: Global,
    bytes: &[u8],
    at: Option<Instant>,
    node: u8,
    watch: &mut W,
) -> Result<FleetMap, MapFault>
    ensures fleet { IfOk result (λ drawn.
        HasFleet (⟦<Scripted<MemStable> as Stable>⟧) bytes.now node drawn.end) }
    ensures map { IfOk result (IsMap (⟦<Scripted<MemStable> as Stable>⟧) bytes.now at node) }
    ensures fault { IfErr result (IsMapFault (⟦<Scripted<MemStable> as Stable>⟧) bytes.now node) }
{
    let survey = match survey_run(alloc, bytes, watch) {
        Ok(survey) => survey,
        Err(fault) => return Err(MapFault::Schedule(fault)),
    };
    let end = survey.end;
    let db = match fleet_of(&survey, node) {
        Ok(db) => db,
        Err(fault) => return Err(fault),
    };
    let t = instant_of(at, db);
    match draw(alloc, &survey, db, t, node) {
        Ok(text) => Ok(FleetMap { text, end }),
        Err(_) => Err(MapFault::Memory),
    }
}

/// What the node of this number holds where the run ended.
pub fn fleet_of(survey: &Survey, node: u8) -> Result<&Db, MapFault>
    ensures { MatchResult result (λ db. fleet_at (world_of survey.now.world) node ≡ Some db.now)
        (IsNoFleet survey.now.nodes (world_of survey.now.world) node) }
{
    if node >= survey.nodes.count() {
        return Err(MapFault::NoSuchNode(node));
    }
    match survey.world.database(survey.nodes.node(node)) {
        Some(db) => Ok(db),
        None => Err(MapFault::Down(node)),
    }
}

/// The instant that is asked for, or the last of any feature.
fn instant_of(at: Option<Instant>, db: &Db) -> Instant
    ensures { IsAsked at result }
{
    match at {
        Some(t) => t,
        None => last_instant(db),
    }
}

/// The last instant of any feature, or the first of all where there is no feature.
fn last_instant(db: &Db) -> Instant {
    let mut last = Instant::new(0).unwrap();
    for at in 0..db.len() {
        if let Some((_id, seq)) = db.feature(at) {
            let end = seq.span().end();
            if last < end {
                last = end;
            }
        }
    }
    last
}

fn draw(alloc: Global, survey: &Survey, db: &Db, t: Instant, node: u8) -> io::Result<Vec<u8>>
    ensures { IfOk result (λ text. IsPage db.now t node text.items) }
{
    let title = title_text(alloc, t, node)?;
    let note = note_text(alloc, survey, db.len())?;
    draw_fleet(alloc, db, t, &survey.asked, &title, note.as_bytes())
}

/// Which instant is shown, and of which node.
fn title_text(alloc: Global, t: Instant, node: u8) -> Result<Vec<u8>, AllocError>
    ensures { IfOk result (λ title. IsTitle t node title.items) }
{
    let datetime = datetime_text(t);
    let whose = format!(in alloc; ", as node {node} has it")?;
    let mut text = Vec::new(alloc);
    text.extend_from_slice(b"The fleet at ")?;
    text.extend_from_slice(&datetime)?;
    text.extend_from_slice(whose.as_bytes())?;
    Ok(text)
}

/// How many features there are, and how the run ended.
fn note_text(alloc: Global, survey: &Survey, features: u32) -> Result<String, AllocError> {
    let nodes = survey.nodes.count();
    match survey.end {
        None => format!(in alloc;
            "Features: {features}. The run of {nodes} nodes was done to its end."
        ),
        Some(end) => format!(in alloc;
            "Features: {features}. The run of {nodes} nodes ended at {end}."
        ),
    }
}
