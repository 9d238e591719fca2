//! What a node does on an input is allowed by the protocol.
//!
//! Each law is the contract of a function that does nothing.

ghost use Rattle.std.specs.Prelude.{◌≡◌, ◌<◌, ◌≤◌, ℕ, Some, None, false};
ghost use Rattle.synod.specs.Volatile.{blank};
ghost use Rattle.synod.specs.Acts as acts;
ghost use Rattle.synod.specs.Acts.{Local};
ghost use Rattle.sessions.specs.declared.command.Command.{Command};
ghost use Rattle.stable.specs.Records.{Records};
ghost use Rattle.acceptor.specs.Accepting.{Accepting, OptionalWrite, records_after};
ghost use Rattle.acceptor.specs.Protocol.{RecordsStand};
ghost use Rattle.node_model.specs.declared.fault.NodeFault.{NodeFault};
ghost use Rattle.node_model.specs.declared.input.Input.{Input};
ghost use Rattle.node_model.specs.Faults.{is_stop_fault};
ghost use Rattle.node_model.specs.Loading.{IsReplicaOf, IsLoaded};
ghost use Rattle.node_model.specs.Replicas.{ReplicaState, position, refuses};
ghost use Rattle.node_model.specs.Outputs.{Response};
ghost use Rattle.node_model.specs.Protocol.{ReplicaStands, MayTake, MayStop, RecordsHold, InputFits, input_of, accepting_after, round_after};
ghost use Rattle.node_model.specs.Taking.{Writes, Takes};

/// Whatever a node makes of an input that it takes is allowed. It may go down, on an input also where the write that the input makes
/// was made.
pub fn steps_are_allowed()
    ensures taking { (nodes id : ℕ) (old new : ReplicaState) (input : Input) (said : Response) (x : Local Command) → nodes ≤ 7 → id < nodes
        → IsReplicaOf id nodes old → Takes old input new said → ReplicaStands old x → MayTake nodes id input x new said }
    ensures unwritten { (nodes id : ℕ) (m : ReplicaState) (input : acts.Input Command) (x : Local Command) → IsReplicaOf id nodes m
        → ReplicaStands m x → MayStop nodes id input x m.acceptor m.proposer.round }
    ensures written { (nodes id : ℕ) (m : ReplicaState) (input : Input) (x : Local Command) → id < 7 → IsReplicaOf id nodes m
        → ReplicaStands m x → MayStop nodes id (input_of id nodes input) x (accepting_after m input) (round_after m input) }
{}

/// What a node refuses doesn't stop it.
pub fn refusals_go_on()
    ensures { (m : ReplicaState) (input : Input) (fault : NodeFault) → refuses m input ≡ Some fault → is_stop_fault fault ≡ false }
{}

/// Records that say what a node holds say what it writes on an input once that is written, and this is what it holds where it
/// takes the input.
pub fn records_go_on()
    ensures written { (m : ReplicaState) (input : Input) (records : Records) (write : OptionalWrite) → refuses m input ≡ None
        → Writes m input write → InputFits input → RecordsHold records m.acceptor m.proposer.round
        → RecordsHold (records_after records write) (accepting_after m input) (round_after m input) }
    ensures taken { (old new : ReplicaState) (input : Input) (said : Response) (records : Records) (write : OptionalWrite)
        → refuses old input ≡ None → Takes old input new said → Writes old input write → InputFits input
        → RecordsHold records old.acceptor old.proposer.round
        → RecordsHold (records_after records write) new.acceptor new.proposer.round }
{}

/// A node that has loaded the records of a run holds what they say, and it stands for the protocol's records and a replica that holds
/// nothing but its position.
pub fn loading_is_allowed()
    ensures holds { (records : Records) (id nodes : ℕ) (m : ReplicaState) (a : Accepting) (round : ℕ) → IsLoaded records id nodes m
        → RecordsHold records a round → RecordsHold records m.acceptor m.proposer.round }
    ensures stands { (records : Records) (id nodes : ℕ) (m : ReplicaState) (a : Accepting) (round : ℕ) (x : Local Command)
        → IsLoaded records id nodes m → RecordsHold records a round → RecordsStand a round x.records
        → x.replica ≡ record blank { position = position m } → ReplicaStands m x }
{}
