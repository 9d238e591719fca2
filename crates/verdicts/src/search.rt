//! Choices among the operations of requests that were submitted with several.

ghost use Rattle.std.specs.Prelude.{◌≡◌, ◌≢◌, ◌≤◌, ◌<◌, ◌+◌, ◌++◌, ◌↔◌, [], ℕ, List, Option, All, Any, Contains, IfOk, OnOk, IsTrue, length, slice_get, take, count_by, ◌∷◌, MatchOption, Some, true, false};
ghost use Rattle.store.specs.Operations.{OpIsValid};
ghost use Rattle.sessions.specs.declared.submission.Submission.{Submission};
ghost use Rattle.verdicts.specs.Execution.{IsContradiction};
ghost use Rattle.verdicts.specs.Explaining.{position_of};
ghost use Rattle.verdicts.specs.Placement.{SlotIsSubmitted};
ghost use Rattle.verdicts.specs.RequestIndex.{IsIndexed, IsOf};
ghost use Rattle.verdicts.specs.Search.{AreLearnt, AreOperations, AreUnlike, HasTried, HasTriedMany, IsLikeliestLast, IsListed, IsNext, IsOperation, IsTried, IsUnlisted, StandsBehind, branches_at, is_command_of, is_known_by, IsExtended, IsStop, IsBehind, IsWithin, IsEntering, IsLeaving, IsSolved, IsOutcome, AfterStep};
ghost use Rattle.verdicts.specs.Verdicts.{AreOpen};
ghost use Rattle.verdicts.specs.declared.lines.Name.{Name as AName};
ghost use Rattle.verdicts.specs.declared.lines.Question.{Question as AQuestion};
ghost use Rattle.verdicts.specs.declared.lines.ToldLine.{ToldLine as ALine};
ghost use Rattle.verdicts.specs.declared.search.Branch.{Branch as ABranch};

use crate::examination::{Contradiction, Scan, examine_lines, is_later};
use crate::lines::{Name, Question, ToldLine};
use crate::placement::{Named, command_named};
use crate::request_index::Occurrence;
use crate::verdict::Verdict;
use sessions::{Command, Request};
use std::alloc::{AllocError, Global};
use std::collections::BTreeMap;

/// So many choices are tried at most after the first.
const MOST_CHOICES: usize = 65_536;

/// A choice that was not tried yet: at this slot, of the requests the one at this place.
#[derive(Clone, Copy)]
pub(crate) struct Branch {
    slot: usize,
    place: usize,
}

/// Choices, tried slot by slot.
#[derive(Drop)]
pub(crate) struct Search {
    /// The commands of the choice that is tried, from slot 0 on.
    commands: Vec<Command>,
    /// The choices that were not tried yet, the next one last. Below its slot each has these commands.
    untried: Vec<Branch>,
    /// The latest contradiction for which a choice was left.
    latest: Option<Contradiction>,
    /// A slot that a choice needs, and of which no line tells.
    unlearnt: Option<usize>,
}

/// Tries choices, for the verdict on the other lines, where these names are known of the slots.
///
/// A choice is left at the first line that contradicts it. Where each was left, the latest of those lines contradicts all.
pub(crate) fn try_choices(
    alloc: Global,
    requests: &[Request],
    index: &BTreeMap<(u8, u64), Occurrence>,
    names: &[Option<Name>],
    questions: &[Question],
    told: &[ToldLine],
) -> Result<Verdict, AllocError>
    requires indexed { IsIndexed requests.now index.now }
    requires submitted { All (SlotIsSubmitted requests.now) names.now }
    requires valid { All (λ (r : Submission). OpIsValid r.op) requests.now }
    requires reached { All (λ (line : ALine). position_of line.told ≤ length names.now) told.now }
    ensures { IfOk result (IsOutcome requests.now names.now questions.now told.now) }
{
    let mut search = Search::new(alloc);
    if search.visit(alloc, requests, index, names, questions, told)? {
        return Ok(Verdict::Explained);
    }
    for _tried in 0..MOST_CHOICES {
        if !search.follow(requests)? {
            return Ok(search.outcome(requests, told));
        }
        if search.visit(alloc, requests, index, names, questions, told)? {
            return Ok(Verdict::Explained);
        }
    }
    Ok(search.outcome(requests, told))
}

impl Search {
    /// Nothing is chosen yet.
    fn new(alloc: Global) -> Search
        ensures entering { (requests : List Submission) (names : List (Option AName)) (questions : List AQuestion) (told : List ALine)
            → All (SlotIsSubmitted requests) names → IsEntering requests names questions told result }
        ensures first { (requests : List Submission) (names : List (Option AName)) (questions : List AQuestion) (told : List ALine)
            → IsNext requests names questions told 0 result.commands.items result.untried.items }
    {
        Search {
            commands: Vec::new(alloc),
            untried: Vec::new(alloc),
            latest: None,
            unlearnt: None,
        }
    }

    /// Goes on to the next slot at which there is a choice, and looks at what the commands up to there explain: whether all lines.
    fn visit(
        &mut self,
        alloc: Global,
        requests: &[Request],
        index: &BTreeMap<(u8, u64), Occurrence>,
        names: &[Option<Name>],
        questions: &[Question],
        told: &[ToldLine],
    ) -> Result<bool, AllocError>
        requires indexed { IsIndexed requests.now index.now }
        requires submitted { All (SlotIsSubmitted requests.now) names.now }
        requires valid { All (λ (r : Submission). OpIsValid r.op) requests.now }
        requires reached { All (λ (line : ALine). position_of line.told ≤ length names.now) told.now }
        requires entering { IsEntering requests.now names.now questions.now told.now self.old }
        ensures explained { IfOk result (λ yes. IsTrue yes → IsSolved requests.now names.now questions.now told.now) }
        ensures leaving { IfOk result (λ yes. yes ≡ false → IsLeaving requests.now names.now questions.now told.now self.new) }
        ensures tried { IfOk result (λ yes. yes ≡ false → (count : ℕ)
            → IsNext requests.now names.now questions.now told.now count self.old.commands.items self.old.untried.items
            → HasTried requests.now names.now questions.now told.now (count + 1) self.new.commands.items self.new.untried.items) }
    {
        let choice = extend(requests, index, names, &mut self.commands)?;
        let found = examine_lines(
            alloc,
            questions,
            &self.commands,
            names.len(),
            told,
            self.latest,
        )?;
        match found {
            Scan::Explained => Ok(true),
            Scan::Contradicted(contradiction) => {
                self.leave(contradiction);
                Ok(false)
            }
            Scan::Undecided => {
                self.choose(alloc, requests, choice)?;
                Ok(false)
            }
        }
    }

    /// Leaves the choice that is tried, for this contradiction.
    fn leave(&mut self, contradiction: Contradiction)
        ensures commands { self.new.commands.items ≡ self.old.commands.items }
        ensures untried { self.new.untried.items ≡ self.old.untried.items }
        ensures leaving { (requests : List Submission) (names : List (Option AName)) (questions : List AQuestion) (told : List ALine)
            → IsEntering requests names questions told self.old
            → IsContradiction questions (length names) self.old.commands.items told self.old.latest contradiction
            → IsLeaving requests names questions told self.new }
    {
        if is_later(contradiction.at, self.latest) {
            self.latest = Some(contradiction);
        }
    }

    /// Adds the choices at the slot behind the commands, of which a line has need.
    fn choose(
        &mut self,
        alloc: Global,
        requests: &[Request],
        choice: Option<(u8, u64)>,
    ) -> Result<(), AllocError>
        ensures leaving { OnOk result ((names : List (Option AName)) (questions : List AQuestion) (told : List ALine)
            → IsEntering requests.now names questions told self.old
            → IsStop requests.now names (length self.old.commands.items) choice
            → AreOpen questions (length names) told self.old.commands.items
            → IsLeaving requests.now names questions told self.new) }
        ensures tried { OnOk result ((names : List (Option AName)) (questions : List AQuestion) (told : List ALine) (count : ℕ)
            → IsNext requests.now names questions told count self.old.commands.items self.old.untried.items
            → IsTried requests.now names questions told self.old.commands.items
            → AreOpen questions (length names) told self.old.commands.items
            → HasTried requests.now names questions told (count + 1) self.new.commands.items self.new.untried.items) }
    {
        let slot = self.commands.len();
        match choice {
            None => {
                self.unlearnt = Some(slot);
                Ok(())
            }
            Some(key) => {
                let places = choices_at(alloc, requests, &self.commands, key.0, key.1)?;
                add_branches(&mut self.untried, slot, &places)?;
                Ok(())
            }
        }
    }

    /// Goes on with the next choice. Says whether there is one.
    fn follow(&mut self, requests: &[Request]) -> Result<bool, AllocError>
        requires { All (IsBehind requests.now) self.old.untried.items }
        ensures step { IfOk result (λ more. (names : List (Option AName)) (questions : List AQuestion) (told : List ALine)
            → IsLeaving requests.now names questions told self.old → AfterStep requests.now names questions told more self.new) }
        ensures next { IfOk result (λ more. IsTrue more → (names : List (Option AName)) (questions : List AQuestion) (told : List ALine)
            (count : ℕ) → IsLeaving requests.now names questions told self.old
            → HasTried requests.now names questions told count self.old.commands.items self.old.untried.items
            → IsNext requests.now names questions told count self.new.commands.items self.new.untried.items) }
        ensures none { IfOk result (λ more. more ≡ false → self.new.untried.items ≡ []) }
    {
        match self.untried.pop() {
            None => Ok(false),
            Some(branch) => {
                let request = requests[branch.place].clone()?;
                self.commands.truncate(branch.slot);
                self.commands.push(Command::Request(request))?;
                Ok(true)
            }
        }
    }

    /// What comes of the choices that were tried.
    fn outcome(&self, requests: &[Request], told: &[ToldLine]) -> Verdict
        requires placed { All (IsBehind requests.now) self.now.untried.items }
        requires within { IsWithin told.now self.now.latest }
        ensures { (names : List (Option AName)) (questions : List AQuestion)
            → IsLeaving requests.now names questions told.now self.now
            → (self.now.untried.items ≢ []
            → HasTriedMany requests.now names questions told.now self.now.commands.items self.now.untried.items)
            → IsOutcome requests.now names questions told.now result }
    {
        let next = self.untried.last().copied();
        if let Some(branch) = next {
            return undecided(&requests[branch.place]);
        }
        if let Some(slot) = self.unlearnt {
            return Verdict::UnlearntSlot(slot);
        }
        match self.latest {
            Some(contradiction) => Verdict::Contradicted {
                place: told[contradiction.at].place,
                why: contradiction.why,
            },
            // Some list has the names, so that at the end one explains all lines or a line contradicts it.
            None => Verdict::Explained,
        }
    }
}

/// The verdict that too many choices are left, of this request too.
fn undecided(request: &Request) -> Verdict
    ensures { result ≡ Verdict.TwoOperations request.now.client request.now.number }
{
    Verdict::TwoOperations {
        client: request.client(),
        number: request.number().value(),
    }
}

/// Adds commands as long as the next slot's name leaves no choice. Returns the client and number of the requests among which there is
/// one at the slot behind them.
fn extend(
    requests: &[Request],
    index: &BTreeMap<(u8, u64), Occurrence>,
    names: &[Option<Name>],
    commands: &mut Vec<Command>,
) -> Result<Option<(u8, u64)>, AllocError>
    requires indexed { IsIndexed requests.now index.now }
    requires submitted { All (SlotIsSubmitted requests.now) names.now }
    requires within { length commands.old.items ≤ length names.now }
    ensures extended { OnOk result (IsExtended requests.now names.now commands.old.items commands.new.items) }
    ensures learnt { OnOk result (AreLearnt names.now (length commands.old.items) → AreLearnt names.now (length commands.new.items)) }
    ensures stops { IfOk result (IsStop requests.now names.now (length commands.new.items)) }
{
    while commands.len() < names.len() {
        let slot = commands.len();
        match names[slot] {
            None => return Ok(None),
            Some(name) => match command_named(requests, index, name)? {
                Named::Only(command) => commands.push(command)?,
                Named::Nobody => return Ok(None),
                Named::Several { client, number } => return Ok(Some((client, number))),
            },
        }
    }
    Ok(None)
}

/// The places of the client's requests of the number, one for each operation. The likeliest behind these commands is the last.
fn choices_at(
    alloc: Global,
    requests: &[Request],
    commands: &[Command],
    client: u8,
    number: u64,
) -> Result<Vec<usize>, AllocError>
    ensures operations { IfOk result (λ places. AreOperations requests.now client number places.items) }
    ensures unlike { IfOk result (λ places. AreUnlike requests.now places.items) }
    ensures likeliest { IfOk result (λ places. IsLikeliestLast requests.now commands.now client number places.items) }
{
    let before = count_of(commands, client, number);
    let mut places = likeliest(alloc, requests, client, number, before)?;
    add_operations(&mut places, requests, client, number)?;
    places.reverse();
    Ok(places)
}

/// The place that is likeliest behind so many of the client's requests of the number, if there is one: nodes mostly learn them in the
/// order in which they were submitted.
fn likeliest(
    alloc: Global,
    requests: &[Request],
    client: u8,
    number: u64,
    before: usize,
) -> Result<Vec<usize>, AllocError>
    ensures each { IfOk result (λ places. All (IsOperation requests.now client number) places.items) }
    ensures unlike { IfOk result (λ places. AreUnlike requests.now places.items) }
    ensures likeliest { IfOk result (λ places. before < count_by (is_known_by client number) requests.now
        → (place : ℕ) × StandsBehind requests.now client number before place × (places.items ≡ place ∷ [])) }
{
    let mut places = Vec::new(alloc);
    match place_of(requests, client, number, before) {
        Some(place) => {
            places.push(place)?;
            Ok(places)
        }
        None => Ok(places),
    }
}

/// The place of the client's request of the number that is behind so many others.
fn place_of(requests: &[Request], client: u8, number: u64, before: usize) -> Option<usize>
    ensures { MatchOption result (count_by (is_known_by client number) requests.now ≤ before)
        (StandsBehind requests.now client number before) }
{
    let mut left = before;
    for place in 0..requests.len() {
        if is_of(&requests[place], client, number) {
            if left == 0 {
                return Some(place);
            }
            left -= 1;
        }
    }
    None
}

/// How many of the commands are the client's requests of the number.
fn count_of(commands: &[Command], client: u8, number: u64) -> usize
    ensures { result ≡ count_by (is_command_of client number) commands.now }
{
    let mut count: usize = 0;
    for command in commands {
        if is_command_of(command, client, number) {
            count += 1;
        }
    }
    count
}

/// Whether the command is the client's request of the number.
fn is_command_of(command: &Command, client: u8, number: u64) -> bool
    ensures { result ≡ is_command_of client number command.now }
{
    match command {
        Command::NoOp => false,
        Command::Request(request) => is_of(request, client, number),
    }
}

/// Whether it is the client's request of the number.
fn is_of(request: &Request, client: u8, number: u64) -> bool
    ensures is_of { IsTrue result ↔ IsOf client number request.now }
    ensures known { result ≡ is_known_by client number request.now }
{
    request.client() == client && request.number().value() == number
}

/// Adds the places of the client's requests of the number, one for each operation that is at none of the places yet.
fn add_operations(
    places: &mut Vec<usize>,
    requests: &[Request],
    client: u8,
    number: u64,
) -> Result<(), AllocError>
    requires each { All (IsOperation requests.now client number) places.old.items }
    requires unlike { AreUnlike requests.now places.old.items }
    ensures operations { OnOk result (AreOperations requests.now client number places.new.items) }
    ensures unlike { OnOk result (AreUnlike requests.now places.new.items) }
    ensures keeps { OnOk result (take (length places.old.items) places.new.items ≡ places.old.items) }
{
    for (place, request) in requests.iter().enumerate() {
        if is_new(requests, places, request, client, number) {
            places.push(place)?;
        }
    }
    Ok(())
}

/// Whether the request is the client's of the number, and stands at none of the places.
fn is_new(
    requests: &[Request],
    places: &[usize],
    request: &Request,
    client: u8,
    number: u64,
) -> bool
    ensures wanted { IsTrue result → IsOf client number request.now }
    ensures unlisted { IsTrue result → IsUnlisted requests.now places.now request.now }
    ensures listed { result ≡ false → IsOf client number request.now → IsListed requests.now places.now request.now }
{
    is_of(request, client, number) && !is_listed(requests, places, request)
}

/// Whether the request stands at one of the places.
fn is_listed(requests: &[Request], places: &[usize], request: &Request) -> bool
    ensures listed { IsTrue result → IsListed requests.now places.now request.now }
    ensures unlisted { result ≡ false → IsUnlisted requests.now places.now request.now }
{
    for place in places {
        if stands_at(requests, *place, request) {
            return true;
        }
    }
    false
}

/// Whether the request stands at the place.
fn stands_at(requests: &[Request], place: usize, request: &Request) -> bool
    ensures { IsTrue result ↔ (slice_get requests.now place ≡ Some request.now) }
{
    if place >= requests.len() {
        return false;
    }
    requests[place] == *request
}

/// Adds choices at the slot, among the requests at these places.
fn add_branches(branches: &mut Vec<Branch>, slot: usize, places: &[usize]) -> Result<(), AllocError>
    ensures { OnOk result (branches.new.items ≡ branches.old.items ++ branches_at slot places.now) }
{
    for place in places {
        branches.push(Branch {
            slot,
            place: *place,
        })?;
    }
    Ok(())
}
