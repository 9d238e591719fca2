//! What holds of every node. Nothing runs.

ghost use Rattle.std.specs.Prelude.{◌≡◌, ◌⊎◌, ◌<◌, ◌≤◌, ℕ, List, Some, None, All, Result, IfOk, length, slice_get};
ghost use Rattle.synod.specs.declared.slot.TheConstants.{SLOTS};
ghost use Rattle.sessions.specs.declared.command.Command.{Command};
ghost use Rattle.node_model.specs.Composition.{IsMeaningOf, executed_from};
ghost use Rattle.node_model.specs.declared.fault.NodeFault.{NodeFault};
ghost use Rattle.node_model.specs.declared.input.Input.{Input};
ghost use Rattle.node_model.specs.declared.outputs.LearntCommand.{LearntCommand};
ghost use Rattle.stable.specs.Records.{Records};
ghost use Rattle.node_model.specs.Loading.{IsBaseOf, IsFresh, IsLoaded, IsMember};
ghost use Rattle.node_model.specs.Replicas.{ReplicaState, learnt_in, position};
ghost use Rattle.node_model.specs.Nodes.{NodeState, NodeSteps};
ghost use Rattle.node_model.specs.Outputs.{Response};
ghost use Rattle.node_model.specs.Protocol.{InputFits};
ghost use Rattle.node_model.specs.Sending.{IsBetween};
ghost use Rattle.node_model.specs.Taking.{Takes};

use stable::Stable;

/// Of the commands of which a node is the meaning there are as many as its position says, and those behind its first are learnt at
/// their slots. A node that has just loaded its records has learnt nothing and begins at the first slot that it keeps, and it is
/// the meaning of each list of commands with which it may begin.
pub fn meanings_are_of_learnt_slots()
    ensures as_many { (base : List Command) (m : ReplicaState) → IsMeaningOf base m → length (executed_from base m) ≡ position m }
    ensures learnt { (base : List Command) (m : ReplicaState) → IsMeaningOf base m → (slot : ℕ) (c : Command) → length base ≤ slot
        → slice_get (executed_from base m) slot ≡ Some c → learnt_in m slot ≡ Some c }
    ensures fresh { (id nodes : ℕ) (m : ReplicaState) → IsFresh id nodes m
        → (position m ≡ m.learner.first) × ((slot : ℕ) → learnt_in m slot ≡ None) }
    ensures loaded { (records : Records) (id nodes : ℕ) (m : ReplicaState) (base : List Command) → IsLoaded records id nodes m
        → IsBaseOf records base → IsMeaningOf base m }
{}

/// A node of a run stays that node, whatever comes to it, and what it sends goes between nodes of the run.
pub fn members_stay<S: Stable>()
    ensures stays { (id nodes : ℕ) (old new : NodeState S) (input : Input) (result : Result Response NodeFault)
        → NodeSteps S.Stable old input result new → IsMember id nodes old → IsMember id nodes new }
    ensures sends { (id nodes : ℕ) (old new : NodeState S) (input : Input) (result : Result Response NodeFault)
        → NodeSteps S.Stable old input result new → IsMember id nodes old → id < nodes
        → IfOk result (λ said. All (IsBetween nodes) said.sends) }
{}

/// What a node newly learns it tells, and it tells nothing else as learnt. Where what comes fits, that is at a slot of the log. With a
/// text that it restores it learns nothing.
pub fn learnt_is_told()
    ensures told { (old new : ReplicaState) (input : Input) (said : Response) → Takes old input new said
        → (slot : ℕ) (c : Command) → learnt_in new slot ≡ Some c
        → (learnt_in old slot ≡ Some c) ⊎ (said.learnt ≡ Some (record { slot = slot; command = c })) }
    ensures news { (old new : ReplicaState) (input : Input) (said : Response) → Takes old input new said
        → (e : LearntCommand) → said.learnt ≡ Some e → (learnt_in new e.slot ≡ Some e.command) × (learnt_in old e.slot ≡ None) }
    ensures in_log { (old new : ReplicaState) (input : Input) (said : Response) → InputFits input → Takes old input new said
        → (e : LearntCommand) → said.learnt ≡ Some e → e.slot < SLOTS }
    ensures restoring { (old new : ReplicaState) (input : Input) (said : Response) → Takes old input new said
        → (target : ℕ) → said.restored ≡ Some target → said.learnt ≡ None }
{}
