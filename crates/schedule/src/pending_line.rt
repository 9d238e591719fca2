//! Lines that were read but for what wants memory: their documents, and the members of their rounds.

ghost use Rattle.std.specs.Prelude.{MatchResult};
ghost use Rattle.mfjson.specs.Document.{IsDocumentOf};
ghost use Rattle.schedule.specs.Table.{NameEach};
ghost use Rattle.schedule.specs.PendingLines.{Becomes, DocumentWasRefused, IsNoList, IsNotRead};
ghost use Rattle.schedule.specs.Words.{words_of};

use super::action::Action;
use super::fault::ScheduleFault;
use super::forms::node;
use super::members::Members;
use super::replay_fault::ReplayCause;
use super::words::Words;
use events::{Event, WorldFault};
use mfjson::{DocumentReader, Feature, MfFault};
use sessions::{Number, Submission};
use std::alloc::Global;
use store::Op;
use wire::{NodeId, Nodes};

/// A client asks a node to put the feature that a document stands for.
#[derive(Drop)]
pub(crate) struct Putting<'a> {
    pub node: NodeId,
    pub client: u8,
    pub number: Number,
    /// All that follows `put` and one blank.
    pub document: &'a [u8],
}

/// A node leads a round of the members that are named.
#[derive(Drop)]
pub(crate) struct PendingRound<'a> {
    pub node: NodeId,
    /// All that follows the node and one blank.
    pub members: &'a [u8],
}

/// What a line spells, before what wants memory is read.
#[derive(Drop)]
pub(crate) enum PendingLine<'a> {
    /// Nothing of the line does.
    Whole(Action),
    Put(Putting<'a>),
    Round(PendingRound<'a>),
}

/// The action, with its document or its members read.
pub(crate) fn finish_line(
    alloc: Global,
    documents: &mut DocumentReader,
    nodes: Nodes,
    unread: PendingLine,
) -> Result<Action, ReplayCause>
    ensures { MatchResult result (Becomes nodes unread.entry) (IsNotRead nodes unread.entry) }
{
    match unread {
        PendingLine::Whole(action) => Ok(action),
        PendingLine::Put(putting) => match feature_of(alloc, documents, putting.document) {
            Ok(feature) => Ok(Action::Step(Event::Submit {
                node: putting.node,
                submission: Submission {
                    client: putting.client,
                    number: putting.number,
                    op: Op::Put(feature.id, feature.seq),
                },
            })),
            Err(cause) => Err(cause),
        },
        PendingLine::Round(rounding) => match members_of(alloc, nodes, rounding.members) {
            Ok(members) => Ok(Action::Round {
                node: rounding.node,
                members,
            }),
            Err(cause) => Err(cause),
        },
    }
}

/// The feature that the document stands for.
fn feature_of(
    alloc: Global,
    documents: &mut DocumentReader,
    document: &[u8],
) -> Result<Feature, ReplayCause>
    ensures { MatchResult result (IsDocumentOf document.now) (DocumentWasRefused document.now) }
{
    match documents.read(alloc, document) {
        Ok(feature) => Ok(feature),
        Err(fault) => match fault {
            MfFault::Memory => Err(ReplayCause::World(WorldFault::Memory)),
            _ => Err(ReplayCause::Schedule(ScheduleFault::Document)),
        },
    }
}

/// The members that the words of the list name.
fn members_of(alloc: Global, nodes: Nodes, list: &[u8]) -> Result<Members, ReplayCause>
    ensures { MatchResult result (NameEach nodes (words_of list.now)) (IsNoList nodes list.now) }
{
    let mut words = Words::of(list);
    let mut members = Vec::new(alloc);
    while let Some(word) = words.next() {
        let Some(member) = node(nodes, word) else {
            return Err(ReplayCause::Schedule(ScheduleFault::WordForm));
        };
        members.push(member)?;
    }
    Ok(Members::new(members))
}
