//! Which names the lines `learn` give the slots.

ghost use Rattle.std.specs.Prelude.{◌≡◌, ◌<◌, ◌++◌, ◌∷◌, [], List, All, length, replicate, vec_len, Some, None, IfOk, IsTrue, ◌↔◌, MatchOption};
ghost use Rattle.sessions.specs.declared.submission.Submission.{Submission};
ghost use Rattle.verdicts.specs.Placement.{IsNamed, IsPlaced, AreNames, IsEnd, IsSubmitted};
ghost use Rattle.verdicts.specs.RequestIndex.{IsFound, IsIndexed};
ghost use Rattle.verdicts.specs.declared.lines.LearnLine.{LearnLine as ALine};

use crate::lines::{LearnLine, Name};
use crate::request_index::Occurrence;
use crate::verdict::{Verdict, Why};
use sessions::{Command, Request};
use std::alloc::{AllocError, Global};
use std::collections::BTreeMap;

/// What the lines `learn` leave.
#[derive(Drop)]
pub(crate) enum Placed {
    /// The name at each slot, or none where no line tells one.
    Names(Vec<Option<Name>>),
    /// There is a verdict already.
    Ends(Verdict),
}

/// What has a name.
#[derive(Drop)]
pub(crate) enum Named {
    /// This command alone.
    Only(Command),
    /// None of the requests.
    Nobody,
    /// Requests of this client and number with different operations.
    Several { client: u8, number: u64 },
}

/// The names that the lines give the slots.
pub(crate) fn place_learns(
    alloc: Global,
    index: &BTreeMap<(u8, u64), Occurrence>,
    learns: &[LearnLine],
    size: usize,
) -> Result<Placed, AllocError>
    requires { All (λ (line : ALine). line.slot < size) learns.now }
    ensures { (requests : List Submission) → IsIndexed requests index.now → IfOk result (IsPlaced requests size learns.now) }
{
    let mut names = unlearnt_slots(alloc, size)?;
    for learn in learns {
        if let Some(end) = place(index, &mut names, learn) {
            return Ok(Placed::Ends(end));
        }
    }
    Ok(Placed::Names(names))
}

/// So many slots of which nothing is told.
fn unlearnt_slots(alloc: Global, size: usize) -> Result<Vec<Option<Name>>, AllocError>
    ensures { IfOk result (λ names. names.items ≡ replicate size None) }
{
    let mut names = Vec::new(alloc);
    for _ in 0..size {
        names.push(None)?;
    }
    Ok(names)
}

/// Places one line, or returns the verdict that it brings.
fn place(
    index: &BTreeMap<(u8, u64), Occurrence>,
    names: &mut Vec<Option<Name>>,
    learn: &LearnLine,
) -> Option<Verdict>
    requires { learn.now.slot < vec_len names.old }
    ensures count { length names.new.items ≡ length names.old.items }
    ensures placed { (requests : List Submission) (learns : List ALine) → IsIndexed requests index.now
        → AreNames requests (vec_len names.old) learns names.old.items
        → MatchOption result (AreNames requests (vec_len names.old) (learns ++ learn.now ∷ []) names.new.items)
        (λ verdict. IsEnd requests (vec_len names.old) learns learn.now verdict) }
{
    let slot = learn.slot as usize;
    if let Some(name) = names[slot] {
        if is_same_name(name, learn.name) {
            return None;
        }
        return Some(contradiction(learn, Why::TwoCommands));
    }
    if !is_submitted(index, learn.name) {
        return Some(contradiction(learn, Why::NotSubmitted));
    }
    names[slot] = Some(learn.name);
    None
}

/// Whether the names are the same.
fn is_same_name(one: Name, other: Name) -> bool
    ensures { IsTrue result ↔ (one ≡ other) }
{
    one == other
}

/// Whether a no-op or one of the requests has the name.
fn is_submitted(index: &BTreeMap<(u8, u64), Occurrence>, name: Name) -> bool
    ensures { (requests : List Submission) → IsIndexed requests index.now → (IsTrue result ↔ IsSubmitted requests name) }
{
    match name {
        Name::NoOp => true,
        Name::Request { client, number } => {
            let found = index.get(&(client, number)).copied();
            found.is_some()
        }
    }
}

/// The verdict that a line contradicts those before it.
fn contradiction(learn: &LearnLine, why: Why) -> Verdict
    ensures { result ≡ Verdict.Contradicted learn.now.place why }
{
    Verdict::Contradicted {
        place: learn.place,
        why,
    }
}

/// The command with the name, among no-ops and these requests.
pub(crate) fn command_named(
    requests: &[Request],
    index: &BTreeMap<(u8, u64), Occurrence>,
    name: Name,
) -> Result<Named, AllocError>
    requires { IsIndexed requests.now index.now }
    ensures { IfOk result (IsNamed requests.now name) }
{
    match name {
        Name::NoOp => Ok(Named::Only(Command::NoOp)),
        Name::Request { client, number } => {
            let found = index.get(&(client, number)).copied();
            request_named(requests, found, client, number)
        }
    }
}

/// The request of the client under the number, as a command, by what is known of them.
fn request_named(
    requests: &[Request],
    found: Option<Occurrence>,
    client: u8,
    number: u64,
) -> Result<Named, AllocError>
    requires { IsFound requests.now client number found }
    ensures { IfOk result (IsNamed requests.now (Name.Request client number)) }
{
    match found {
        None => Ok(Named::Nobody),
        Some(occurrence) => {
            if occurrence.is_ambiguous {
                return Ok(Named::Several { client, number });
            }
            let request = requests[occurrence.first].clone()?;
            Ok(Named::Only(Command::Request(request)))
        }
    }
}
