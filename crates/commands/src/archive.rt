//! What files are to a run of the program.

ghost use Rattle.std.specs.Prelude.{◌≡◌, ◌⊎◌, ⊤, ℕ, Bool, List, IfErr, IfOk, OnErr, vec_len};
ghost use Rattle.commands.specs.declared.failure.Failure.{Failure};

use crate::Failure;
use stable::Stable;
use std::alloc::AllocError;
use wire::Nodes;

/// What reads the FILE that the words name, and keeps the records of a replay's nodes where they name a folder for them.
///
/// Whoever runs the program hands one in, as it does the streams: so nothing here stands on a database, and any storage that keeps
/// the law of `Stable` will do.
///
/// Its meaning is what its calls may make of it. An archive of which nothing is known leaves that out; a run makes the same calls of
/// any other, so what is promised of those holds of it too.
pub trait Archive {
    /// One node's records.
    type Records: Stable + Drop;

    /// What reading the file of this name may make of it that has these bytes.
    ghost reads: { Self → List ℕ → List ℕ → Self → Type 0 } = { λ _ _ _ _. ⊤ };

    /// What reading it may make of it that ends so.
    ghost read_fails: { Self → List ℕ → Failure → Self → Type 0 } = { λ _ _ _ _. ⊤ };

    /// What opening so many nodes' records under a folder's name may make of it that hands out these.
    ghost opens: { Self → List ℕ → ℕ → List Self.Records → Self → Type 0 } = { λ _ _ _ _ _. ⊤ };

    /// What opening them may make of it that ends so.
    ghost open_fails: { Self → List ℕ → ℕ → Failure → Self → Type 0 } = { λ _ _ _ _ _. ⊤ };

    /// What asking may make of it whether a run has left some of them open, which is answered so.
    ghost looks: { Self → List ℕ → ℕ → Bool → Self → Type 0 } = { λ _ _ _ _ _. ⊤ };

    /// What asking that may make of it that has no answer.
    ghost look_fails: { Self → List ℕ → ℕ → Self → Type 0 } = { λ _ _ _ _. ⊤ };

    /// What closing them in order may make of it.
    ghost settles: { Self → List ℕ → ℕ → Self → Type 0 } = { λ _ _ _ _. ⊤ };

    /// All bytes of the file of this name.
    fn read(&mut self, rt: &HostRuntime, path: &str) -> Result<Vec<u8>, Failure>
        ensures read { IfOk result (λ bytes. reads self.old path.now bytes.items self.new) }
        ensures failed { IfErr result (λ failure. read_fails self.old path.now failure self.new) }
        ensures err { IfErr result (λ failure. (failure ≡ Failure.Device) ⊎ (failure ≡ Failure.Memory)) };

    /// The records of so many nodes under a folder's name, node 0's first. They are made where there are none.
    fn open(
        &mut self,
        rt: &HostRuntime,
        folder: &str,
        count: Nodes,
    ) -> Result<Vec<Self::Records>, Failure>
        ensures opened { IfOk result (λ stores. opens self.old folder.now count stores.items self.new) }
        ensures one_each { IfOk result (λ stores. vec_len stores ≡ count) }
        ensures failed { IfErr result (λ failure. open_fails self.old folder.now count failure self.new) }
        ensures err { IfErr result (λ failure. (failure ≡ Failure.Device) ⊎ (failure ≡ Failure.Memory)) };

    /// Whether a run has left some of these records open, as a crash does.
    fn has_unmerged_log(
        &mut self,
        rt: &HostRuntime,
        folder: &str,
        count: Nodes,
    ) -> Result<bool, AllocError>
        ensures looked { IfOk result (λ is_open. looks self.old folder.now count is_open self.new) }
        ensures failed { OnErr result (look_fails self.old folder.now count self.new) };

    /// Closes in order what a run has left open, as far as that can be done: what can't be closed stays as it is, and nobody is told.
    fn merge_logs(&mut self, rt: &HostRuntime, folder: &str, count: Nodes)
        ensures { settles self.old folder.now count self.new };
}
