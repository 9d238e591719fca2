//! One node's acceptor.

ghost use Rattle.std.specs.Prelude.{◌≡◌, ◌<◌, ◌≤◌, ◌⊎◌, Some, None};
ghost use Rattle.std.specs.Prelude.{IsSome, IfSome, IfOk, OnOk, OnErr, IsErrOf, option_map};
ghost use Rattle.synod.specs.Ballots.{rank};
ghost use Rattle.stable.specs.Records.{Records};
ghost use Rattle.stable.specs.declared.key.Key.TheVariants as key;
ghost use Rattle.acceptor.specs.Accepting.{OptionalWrite, RecordsSay, refusing, Taken, verdict, turned_away};
ghost use Rattle.acceptor.specs.Accepting.{AnswersPrepare, prepare_write, after_prepare};
ghost use Rattle.acceptor.specs.Accepting.{accept_answer, after_accept, IsAcceptWrite, IsNewVote};
ghost use Rattle.acceptor.specs.Accepting.{HasWritten, HasFailed, checkpoint_change, after_checkpoint, HasVoteBelow, IsTrimWrite, after_trim};
ghost use Rattle.acceptor.specs.AcceptedValues.{AreUpTo, vote_at};
ghost use Rattle.acceptor.specs.Forms.{BallotFitsRecord, CheckpointFits, VoteFitsRecord, IsOfItsForm, AreOfTheirForm, HasDamagedRecord};
ghost use Rattle.acceptor.specs.Loading.{raised, with_seen, MachineBeginsWith, IsMachineOf, checkpoint_found};
ghost use Rattle.acceptor.specs.Ranges.{StandsFrom};
ghost use Rattle.acceptor.specs.Spelling.{ballot_bytes, vote_bytes};
ghost use Rattle.sessions.specs.Snapshots.{StandsForEach, snapshot_bytes};
ghost use Rattle.synod.specs.declared.slot.TheConstants.{SLOTS};
ghost use Rattle.wire.specs.RecordForms.{checkpoint_bytes};

use super::accepted_value::AcceptedValue;
use super::answer::Answer;
use super::records::{Found, checkpointed, promised, voted, write_checkpoint, write_promise};
use super::votes::Votes;
use sessions::{Command, Machine};
use stable::{Key, Stable, StableFault};
use std::alloc::{AllocError, Global};
use synod::{Ballot, Slot, Vote};
use wire::{Nack, Position, SharedCommand};

/// What one node has promised, and what it has voted for at each slot.
///
/// One promise serves all slots. A look-up takes a number of steps that grows with the logarithm of the votes.
pub struct Acceptor {
    promise: Option<Ballot>,
    // It speaks of the slots from here on: the position of its checkpoint, or 0 without one.
    floor: u32,
    // What was promised when the checkpoint was written, as its record says.
    sealed: Option<Ballot>,
    // The checkpoint's text, as its record has it; empty without one.
    text: Vec<u8>,
    votes: Votes,
    // No vote is of a ballot above the promise, so that a promise may tell each.
    ghost bounded: { AreUpTo promise votes },
    ghost in_log: { floor ≤ SLOTS },
}

// By hand, so that a crate that drops one proves nothing of what lies within.
impl Drop for Acceptor {
    fn drop(self) {
        let Acceptor {
            promise: _,
            floor: _,
            sealed: _,
            text,
            votes,
        } = self;
        drop(text);
        drop(votes);
    }
}

impl Acceptor {
    ghost use Rattle.acceptor.specs.State.{accepting_of};

    /// The acceptor that the records tell of: its votes are those recorded, its floor is the position of the checkpoint, and its
    /// promise is the greatest of record Promise, of the checkpoint's promise and of the ballots of all votes.
    ///
    /// A stray key, and a record that is not of its form, is refused: `Damaged`. The round is not read.
    pub fn load<S: Stable>(alloc: Global, storage: &mut S) -> Result<Acceptor, StableFault>
        ensures told { S.IsHonest storage.new → IfOk result (λ loaded.
            RecordsSay (S.contents storage.old) (accepting_of loaded)) }
        ensures form { S.IsHonest storage.new → OnOk result
            (AreOfTheirForm (S.contents storage.old)) }
        ensures no_stray { S.IsHonest storage.new → OnOk result (¬ (S.HasStrayKey storage.old)) }
        ensures looks { OnOk result (S.looks storage.old storage.new) }
        ensures settled { OnOk result (S.IsSettled storage.new) }

        // Each error.
        ensures device { IsErrOf result StableFault.Device → S.read_fails storage.old storage.new }
        ensures memory { IsErrOf result StableFault.Memory → S.looks storage.old storage.new }
        ensures damaged { IsErrOf result StableFault.Damaged → S.looks storage.old storage.new }
        ensures damaged_record { S.IsHonest storage.new → IsErrOf result StableFault.Damaged
            → S.HasStrayKey storage.old ⊎ HasDamagedRecord (S.contents storage.old) }
    {
        let (acceptor, _machine) = Acceptor::load_with_machine(alloc, storage)?;
        Ok(acceptor)
    }

    /// As `load`, with the machine of the checkpoint's text, or the empty one without a checkpoint. Each record is read once.
    pub fn load_with_machine<S: Stable>(
        alloc: Global,
        storage: &mut S,
    ) -> Result<(Acceptor, Machine), StableFault>
        ensures told { S.IsHonest storage.new → IfOk result (λ loaded.
            RecordsSay (S.contents storage.old) (accepting_of loaded.0)) }
        ensures machine { S.IsHonest storage.new → IfOk result (λ loaded.
            MachineBeginsWith (S.contents storage.old) loaded.1) }
        ensures restored { IfOk result (λ loaded. IsMachineOf (accepting_of loaded.0).text loaded.1) }
        ensures form { S.IsHonest storage.new → OnOk result
            (AreOfTheirForm (S.contents storage.old)) }
        ensures no_stray { S.IsHonest storage.new → OnOk result (¬ (S.HasStrayKey storage.old)) }
        ensures looks { OnOk result (S.looks storage.old storage.new) }
        ensures settled { OnOk result (S.IsSettled storage.new) }

        // Each error.
        ensures device { IsErrOf result StableFault.Device → S.read_fails storage.old storage.new }
        ensures memory { IsErrOf result StableFault.Memory → S.looks storage.old storage.new }
        ensures damaged { IsErrOf result StableFault.Damaged → S.looks storage.old storage.new }
        ensures damaged_record { S.IsHonest storage.new → IsErrOf result StableFault.Damaged
            → S.HasStrayKey storage.old ⊎ HasDamagedRecord (S.contents storage.old) }
    {
        let keys = storage.keys(alloc)?;
        let votes = Votes::with_room(alloc, keys.len())?;
        let mut loaded = Acceptor {
            promise: None,
            floor: 0,
            sealed: None,
            text: Vec::new(alloc),
            votes,
        };
        let mut machine = Machine::new(alloc);
        let mut buffer = Vec::new(alloc);
        for key in &keys {
            loaded.take_in(alloc, storage, *key, &mut machine, &mut buffer)?;
        }
        Ok((loaded, machine))
    }

    /// Takes in what the record under a key says; the machine of a checkpoint takes the place of the one given. The round is the
    /// proposer's, and is not read.
    fn take_in<S: Stable>(
        &mut self,
        alloc: Global,
        storage: &mut S,
        key: Key,
        machine: &mut Machine,
        buffer: &mut Vec<u8>,
    ) -> Result<(), StableFault>
        ensures told { S.IsHonest storage.new → OnOk result ((seen : Records) → seen key ≡ None
            → RecordsSay seen (accepting_of self.old)
            → RecordsSay (with_seen seen key (S.contents storage.old key))
            (accepting_of self.new)) }
        ensures machine { S.IsHonest storage.new → OnOk result ((seen : Records) → seen key ≡ None
            → MachineBeginsWith seen machine.old
            → MachineBeginsWith (with_seen seen key (S.contents storage.old key)) machine.new) }
        ensures restored { OnOk result (IsMachineOf (accepting_of self.old).text machine.old
            → IsMachineOf (accepting_of self.new).text machine.new) }
        ensures form { S.IsHonest storage.new → OnOk result
            (IfSome (S.contents storage.old key) (IsOfItsForm key)) }
        ensures reads { OnOk result (S.reads storage.old storage.new) }

        // Each error.
        ensures device { IsErrOf result StableFault.Device → S.read_fails storage.old storage.new }
        ensures memory { IsErrOf result StableFault.Memory → S.reads storage.old storage.new }
        ensures damaged { IsErrOf result StableFault.Damaged → S.reads storage.old storage.new }
        ensures damaged_record { S.IsHonest storage.new → IsErrOf result StableFault.Damaged
            → HasDamagedRecord (S.contents storage.old) }
    {
        match key {
            Key::Checkpoint => self.take_in_checkpoint(alloc, storage, machine),
            Key::Promise => {
                let found = promised(alloc, storage)?;
                self.take_promise(found);
                Ok(())
            }
            Key::Round => Ok(()),
            Key::Vote(slot) => {
                let found = voted(alloc, storage, slot, buffer)?;
                Ok(self.take_vote(slot, found)?)
            }
        }
    }

    /// Takes in record Checkpoint, as `take_in` does.
    // Apart, so that the room of a machine, some kilobytes, isn't cleared for each vote.
    #[cold]
    #[inline(never)]
    fn take_in_checkpoint<S: Stable>(
        &mut self,
        alloc: Global,
        storage: &mut S,
        machine: &mut Machine,
    ) -> Result<(), StableFault>
        ensures told { S.IsHonest storage.new → OnOk result ((seen : Records) → seen key.Checkpoint ≡ None
            → RecordsSay seen (accepting_of self.old)
            → RecordsSay (with_seen seen key.Checkpoint (S.contents storage.old key.Checkpoint))
            (accepting_of self.new)) }
        ensures machine { S.IsHonest storage.new → OnOk result ((seen : Records) → seen key.Checkpoint ≡ None
            → MachineBeginsWith seen machine.old
            → MachineBeginsWith (with_seen seen key.Checkpoint (S.contents storage.old key.Checkpoint)) machine.new) }
        ensures restored { OnOk result (IsMachineOf (accepting_of self.old).text machine.old
            → IsMachineOf (accepting_of self.new).text machine.new) }
        ensures form { S.IsHonest storage.new → OnOk result
            (IfSome (S.contents storage.old key.Checkpoint) (IsOfItsForm key.Checkpoint)) }
        ensures reads { OnOk result (S.reads storage.old storage.new) }

        // Each error.
        ensures device { IsErrOf result StableFault.Device → S.read_fails storage.old storage.new }
        ensures memory { IsErrOf result StableFault.Memory → S.reads storage.old storage.new }
        ensures damaged { IsErrOf result StableFault.Damaged → S.reads storage.old storage.new }
        ensures damaged_record { S.IsHonest storage.new → IsErrOf result StableFault.Damaged
            → HasDamagedRecord (S.contents storage.old) }
    {
        let found = checkpointed(alloc, storage)?;
        self.take_checkpoint(found, machine);
        Ok(())
    }

    /// Takes in what record Checkpoint says.
    fn take_checkpoint(&mut self, found: Option<Found>, machine: &mut Machine)
        requires fits { IfSome found (λ f. CheckpointFits (checkpoint_found f)) }
        requires stands { IfSome found (λ f. StandsForEach f.text.items f.machine) }
        requires restored { IfSome found (λ f. snapshot_bytes f.machine ≡ f.text.items) }
        ensures told { (seen : Records) → seen key.Checkpoint ≡ None
            → RecordsSay seen (accepting_of self.old)
            → RecordsSay (with_seen seen key.Checkpoint (option_map checkpoint_bytes (option_map checkpoint_found found)))
            (accepting_of self.new) }
        ensures machine { (seen : Records) → seen key.Checkpoint ≡ None → MachineBeginsWith seen machine.old
            → MachineBeginsWith (with_seen seen key.Checkpoint (option_map checkpoint_bytes (option_map checkpoint_found found)))
            machine.new }
        ensures restored { IsMachineOf (accepting_of self.old).text machine.old
            → IsMachineOf (accepting_of self.new).text machine.new }
    {
        let Some(found) = found else {
            return;
        };
        let Found {
            position,
            promise,
            text,
            machine: restored,
        } = found;
        *machine = restored;
        self.floor = position;
        self.sealed = promise;
        self.text = text;
        if let Some(ballot) = promise {
            self.raise(ballot);
        }
    }

    /// Takes in what record Promise says.
    fn take_promise(&mut self, found: Option<Ballot>)
        requires { IfSome found BallotFitsRecord }
        ensures told { (seen : Records) → seen key.Promise ≡ None
            → RecordsSay seen (accepting_of self.old)
            → RecordsSay (with_seen seen key.Promise (option_map ballot_bytes found))
            (accepting_of self.new) }
        ensures text { self.new.text ≡ self.old.text }
    {
        if let Some(ballot) = found {
            self.raise(ballot);
        }
    }

    /// Takes in what the record of a slot says.
    fn take_vote(&mut self, slot: Slot, found: Option<AcceptedValue>) -> Result<(), AllocError>
        requires { IfSome found (λ cast. VoteFitsRecord (vote_at slot cast)) }
        ensures told { OnOk result ((seen : Records) → seen (key.Vote slot) ≡ None
            → RecordsSay seen (accepting_of self.old)
            → RecordsSay (with_seen seen (key.Vote slot)
            (option_map vote_bytes (option_map (vote_at slot) found)))
            (accepting_of self.new)) }
        ensures text { OnOk result (self.new.text ≡ self.old.text) }
    {
        if let Some(cast) = found {
            self.raise(cast.ballot);
            self.votes.insert(slot, cast)?;
        }
        Ok(())
    }

    /// Raises the promise to a ballot that is greater.
    fn raise(&mut self, ballot: Ballot)
        ensures promise { self.new.promise ≡ raised self.old.promise ballot }
        ensures votes { self.new.votes ≡ self.old.votes }
        ensures floor { self.new.floor ≡ self.old.floor }
        ensures sealed { self.new.sealed ≡ self.old.sealed }
        ensures text { self.new.text ≡ self.old.text }
    {
        if self.promise.is_none_or(|promised| promised < ballot) {
            self.promise = Some(ballot);
        }
    }

    /// Answers a prepare: the ballot is promised, and the votes from the slot on told; or it is refused since a greater
    /// one is promised; or else the slot is below the floor, which is told, and nothing is promised.
    ///
    /// A promise tells four votes at most. Its range ends right before the first that finds no room, or with the log.
    ///
    /// A promise is written before it is told. `storage` is the one that was loaded. After `Device` only another load
    /// tells what is promised: here it is what it was. After `Memory` nothing is written or changed.
    pub fn on_prepare<S: Stable>(
        &mut self,
        alloc: Global,
        storage: &mut S,
        ballot: Ballot,
        first: Slot,
    ) -> Result<Answer, StableFault>
        ensures answer { IfOk result (λ a.
            AnswersPrepare (accepting_of self.old) ballot first a) }
        ensures state { OnOk result
            (accepting_of self.new ≡ after_prepare (accepting_of self.old) ballot first) }
        ensures written { OnOk result (HasWritten S.reads S.changes storage.old storage.new
            (prepare_write (accepting_of self.old) ballot first)) }

        // Each error. What isn't taken is answered without one, and so is a ballot that is promised already where there is no
        // vote to tell.
        ensures taken { OnErr result (verdict (accepting_of self.old) ballot first ≡ Taken) }
        ensures wanted { OnErr result (StandsFrom (accepting_of self.old).vote first
            ⊎ IsSome (prepare_write (accepting_of self.old) ballot first)) }
        ensures device { IsErrOf result StableFault.Device
            → HasFailed S.fails storage.old storage.new
            (prepare_write (accepting_of self.old) ballot first) }
        ensures memory { IsErrOf result StableFault.Memory → S.reads storage.old storage.new }
        ensures err_state { OnErr result (accepting_of self.new ≡ accepting_of self.old) }
        ensures not_damaged { ¬ IsErrOf result StableFault.Damaged }
    {
        if let Some(answer) = self.turned_away(ballot, first) {
            return Ok(answer);
        }
        let promise = self.votes.promise(alloc, ballot, first)?;
        if self.promise != Some(ballot) {
            write_promise(alloc, storage, ballot)?;
        }
        self.promise = Some(ballot);
        Ok(Answer::Promise(promise))
    }

    /// Answers an accept: the vote is cast; or it is refused since a greater ballot is promised; or else its slot is below
    /// the floor, which is told.
    ///
    /// A vote is written before it is told. `storage` is the one that was loaded. After `Device` only another load
    /// tells what is voted for: here it is what it was. After `Memory` nothing is written or changed.
    pub fn on_accept<S: Stable>(
        &mut self,
        alloc: Global,
        storage: &mut S,
        vote: Vote<SharedCommand>,
    ) -> Result<Answer, StableFault>
        ensures answer { IfOk result (λ a. a ≡ accept_answer (accepting_of self.old) vote) }
        ensures state { OnOk result
            (accepting_of self.new ≡ after_accept (accepting_of self.old) vote) }
        ensures written { OnOk result ((w : OptionalWrite) × IsAcceptWrite (accepting_of self.old) vote w
            × HasWritten S.reads S.changes storage.old storage.new w) }
        ensures fits { OnOk result (IsNewVote (accepting_of self.old) vote → VoteFitsRecord vote) }

        // Each error. What isn't taken, and a vote that stands there already, are answered without one.
        ensures fresh { OnErr result (IsNewVote (accepting_of self.old) vote) }
        ensures device { IsErrOf result StableFault.Device
            → (w : OptionalWrite) × IsAcceptWrite (accepting_of self.old) vote w
            × HasFailed S.fails storage.old storage.new w }
        ensures device_fits { IsErrOf result StableFault.Device → VoteFitsRecord vote }
        ensures memory { IsErrOf result StableFault.Memory → S.reads storage.old storage.new }
        ensures err_state { OnErr result (accepting_of self.new ≡ accepting_of self.old) }
        ensures not_damaged { ¬ IsErrOf result StableFault.Damaged }
    {
        if let Some(answer) = self.turned_away(vote.ballot, vote.slot) {
            return Ok(answer);
        }
        if !self.votes.has(&vote) {
            self.votes.record_vote(alloc, storage, &vote)?;
        }
        self.promise = Some(vote.ballot);
        Ok(Answer::Accepted(vote))
    }

    /// Writes a checkpoint: the snapshot text of a database at a position, with the present promise. From then on it speaks of
    /// the slots from there on alone.
    ///
    /// Any bytes are written as they are given; those that are no snapshot text are `Damaged` at the next load. After `Device` only
    /// another load tells which checkpoint is recorded: here it is what it was. After `Memory` nothing is written or changed.
    pub fn checkpoint<S: Stable>(
        &mut self,
        alloc: Global,
        storage: &mut S,
        position: u32,
        text: &[u8],
    ) -> Result<(), StableFault>
        requires above { (accepting_of self.old).floor < position }
        requires in_log { position ≤ SLOTS }
        ensures written { OnOk result (S.changes storage.old
            (checkpoint_change (accepting_of self.old) position text.now) storage.new) }
        ensures state { OnOk result
            (accepting_of self.new ≡ after_checkpoint (accepting_of self.old) position text.now) }

        // Each error.
        ensures device { IsErrOf result StableFault.Device → S.fails storage.old
            (checkpoint_change (accepting_of self.old) position text.now) storage.new }
        ensures memory { IsErrOf result StableFault.Memory → S.reads storage.old storage.new }
        ensures err_state { OnErr result (accepting_of self.new ≡ accepting_of self.old) }
        ensures not_damaged { ¬ IsErrOf result StableFault.Damaged }
    {
        // It takes its place before it is written: after the write nothing may be refused.
        let kept = text.to_vec(alloc)?;
        write_checkpoint(alloc, storage, position, self.promise, text)?;
        self.floor = position;
        self.sealed = self.promise;
        self.text = kept;
        Ok(())
    }

    /// Takes out the votes below the floor, and writes nothing where none stands there.
    ///
    /// After `Device` only another load tells which votes are recorded: here they are what they were. After `Memory` nothing is
    /// written or changed.
    pub fn trim<S: Stable>(&mut self, alloc: Global, storage: &mut S) -> Result<(), StableFault>
        ensures written { OnOk result ((w : OptionalWrite) × IsTrimWrite (accepting_of self.old) w
            × HasWritten S.reads S.changes storage.old storage.new w) }
        ensures state { OnOk result (accepting_of self.new ≡ after_trim (accepting_of self.old)) }

        // Each error.
        ensures device { IsErrOf result StableFault.Device
            → (w : OptionalWrite) × IsTrimWrite (accepting_of self.old) w
            × HasFailed S.fails storage.old storage.new w }
        ensures wanted { OnErr result (HasVoteBelow (accepting_of self.old)) }
        ensures memory { IsErrOf result StableFault.Memory → S.reads storage.old storage.new }
        ensures err_state { OnErr result (accepting_of self.new ≡ accepting_of self.old) }
        ensures not_damaged { ¬ IsErrOf result StableFault.Damaged }
    {
        if !self.votes.has_below(self.floor) {
            return Ok(());
        }
        storage.trim_below(alloc, self.floor)?;
        self.votes.remove_below(self.floor);
        Ok(())
    }

    /// The text of its checkpoint, as the record has it; empty without one.
    pub fn text(&self) -> &[u8]
        ensures { result.now ≡ (accepting_of self.now).text }
    {
        &self.text
    }

    /// The first slot of which it speaks: the position of its checkpoint, or 0 without one.
    pub fn floor(&self) -> u32
        ensures value { result ≡ (accepting_of self.now).floor }
        ensures in_log { result ≤ SLOTS }
    {
        self.floor
    }

    /// The answer to a ballot below the promise, or else to a slot below the floor; None where what is asked is to be done.
    fn turned_away(&self, ballot: Ballot, slot: Slot) -> Option<Answer>
        ensures { result ≡ turned_away (verdict (accepting_of self.now) ballot slot) ballot }
    {
        if let Some(promised) = self.refusing(ballot) {
            return Some(Answer::Nack(refusal(ballot, promised)));
        }
        if slot.value() < self.floor {
            let floor = Position::new(self.floor).unwrap();
            return Some(Answer::Behind(floor));
        }
        None
    }

    /// The promise that a ballot is below.
    fn refusing(&self, ballot: Ballot) -> Option<Ballot>
        ensures value { result ≡ refusing (accepting_of self.now).promise ballot }
        ensures above { IfSome result (λ promised. rank ballot < rank promised) }
    {
        self.promise.filter(|promised| ballot < *promised)
    }
}

/// The refusal of a ballot that is below what is promised.
fn refusal(ballot: Ballot, promised: Ballot) -> Nack
    requires { rank ballot < rank promised }
    ensures { result ≡ record { ballot = ballot; promised = promised } }
{
    Nack::new(ballot, promised).unwrap()
}
