//! Frames, votes and documents from outside, read and spelled again: rows that were worked out by hand, and bytes of a script that nobody
//! sent.

ghost use Rattle.std.specs.Prelude.{◌≡◌, IfOk, IfErr};
ghost use Rattle.mfjson.specs.Document.{IsCanonical, IsDocumentOf};
ghost use Rattle.mfjson.specs.declared.feature.Feature.{Feature};
ghost use Rattle.sessions.specs.declared.command.Command.{Command};
ghost use Rattle.synod.specs.declared.ballot.Ballot.{Ballot};
ghost use Rattle.wire.specs.RecordForms.{IsVoteRecord};
ghost use Rattle.conformance.specs.Faults.{DocumentIsRefused, IsNoVote, IsRefusalOf};

use crate::fault::Fault;
use mfjson::{read, write};
use std::alloc::Global;
use wire::{Nodes, decode, encode, vote_of_record, vote_record};

/// What `NODES FRAME` comes to, a number of nodes and the bytes of a frame in hexadecimal digits: the frame, spelled
/// again of what it was read as.
pub fn frame_again(alloc: Global, words: &str) -> Result<String, Fault> {
    let Some((count, digits)) = words.split_once(' ') else {
        return Err(Fault::Usage);
    };
    let Some(nodes) = nodes_of(count) else {
        return Err(Fault::Usage);
    };
    let frame = hex::decode(alloc, digits)?;
    let again = spelled_again(alloc, frame.as_slice(), nodes)?;
    Ok(hex::encode(alloc, again)?)
}

/// So many nodes, where a run can have as many.
fn nodes_of(count: &str) -> Option<Nodes> {
    Nodes::new(count.parse::<u8>().ok()?)
}

/// The frame of the envelope that these bytes spell, which is the same bytes, or why they are no frame.
fn spelled_again(alloc: Global, frame: &[u8], nodes: Nodes) -> Result<Vec<u8>, Fault>
    ensures same { IfOk result (λ again. again.items ≡ frame.now) }
    ensures refused { IfErr result (IsRefusalOf nodes frame.now) }
{
    let envelope = decode(alloc, frame, nodes)?;
    Ok(encode(alloc, &envelope)?)
}

/// What hexadecimal digits come to, which are the record of a vote: the record, spelled again of the vote that it was read as.
pub fn vote_again(alloc: Global, digits: &str) -> Result<String, Fault> {
    let record = hex::decode(alloc, digits)?;
    let again = recorded_again(alloc, record.as_slice())?;
    Ok(hex::encode(alloc, again)?)
}

/// The record of the vote that these bytes record, or why they are none.
fn recorded_again(alloc: Global, bytes: &[u8]) -> Result<Vec<u8>, Fault>
    ensures same { IfOk result (λ again. (b : Ballot) × (c : Command) × IsVoteRecord bytes.now b c × IsVoteRecord again.items b c) }
    ensures refused { IfErr result (IsNoVote bytes.now) }
{
    let Some((ballot, command)) = vote_of_record(alloc, bytes)? else {
        return Err(Fault::Vote);
    };
    Ok(vote_record(alloc, ballot, &command)?)
}

/// What a document comes to: the canonical one of the feature that it was read as.
pub fn document_again(alloc: Global, text: &str) -> Result<String, Fault> {
    let document = written_again(alloc, text.as_bytes())?;
    match String::from_utf8(document) {
        Ok(text) => Ok(text),
        // A canonical document is a text.
        Err(_) => Err(Fault::Device),
    }
}

/// The canonical document of the feature that these bytes are a document of, or why they are none.
fn written_again(alloc: Global, document: &[u8]) -> Result<Vec<u8>, Fault>
    ensures canonical { IfOk result (λ again. (f : Feature) × IsDocumentOf document.now f × IsCanonical again.items f) }
    ensures refused { IfErr result (DocumentIsRefused document.now) }
{
    let feature = read(alloc, document)?;
    Ok(write(alloc, &feature)?)
}
