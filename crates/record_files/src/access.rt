//! What the system is asked for of one file.

ghost use Rattle.std.specs.Prelude.{◌≡◌, ◌⊎◌, ⊤, ℕ, List, IfErr, IfOk, IsErrOf};
ghost use Rattle.commands.specs.declared.failure.Failure.{Failure};
ghost use Rattle.stable.specs.declared.fault.StableFault.{StableFault};

use crate::record_file::RecordFile;
use commands::{Failure, device_failure};
use stable::{Stable, StableFault};
use std::fs;

/// Who reads one file, and opens the records in one.
///
/// Its meaning is what its calls may make of it. What a file really holds lies outside of any contract, so that of the system leaves
/// it out.
pub trait FileAccess {
    /// One node's records.
    type Records: Stable + Drop;

    /// What reading the file at this path may make of it that has these bytes.
    ghost reads: { Self → List ℕ → List ℕ → Self → Type 0 } = { λ _ _ _ _. ⊤ };

    /// What reading it may make of it that ends so.
    ghost read_fails: { Self → List ℕ → Failure → Self → Type 0 } = { λ _ _ _ _. ⊤ };

    /// What opening the records at this path may make of it that hands out these.
    ghost opens: { Self → List ℕ → Self.Records → Self → Type 0 } = { λ _ _ _ _. ⊤ };

    /// What opening them may make of it that ends so.
    ghost open_fails: { Self → List ℕ → StableFault → Self → Type 0 } = { λ _ _ _ _. ⊤ };

    /// All bytes of the file at this path.
    fn read(&mut self, rt: &HostRuntime, path: &str) -> Result<Vec<u8>, Failure>
        ensures read { IfOk result (λ bytes. reads self.old path.now bytes.items self.new) }
        ensures failed { IfErr result (λ failure. read_fails self.old path.now failure self.new) }
        ensures err { IfErr result (λ failure. (failure ≡ Failure.Device) ⊎ (failure ≡ Failure.Memory)) };

    /// The records in the file at this path, which is made where there is none.
    fn open(&mut self, rt: &HostRuntime, path: &str) -> Result<Self::Records, StableFault>
        ensures opened { IfOk result (λ records. opens self.old path.now records self.new) }
        ensures failed { IfErr result (λ fault. open_fails self.old path.now fault self.new) };
}

/// The files of the system, one call each.
#[derive(Clone, Copy, Debug)]
pub struct System;

impl FileAccess for System {
    type Records = RecordFile;

    fn read(&mut self, rt: &HostRuntime, path: &str) -> Result<Vec<u8>, Failure> {
        match fs::read(rt, path) {
            Ok(bytes) => Ok(bytes),
            Err(error) => Err(device_failure(&error)),
        }
    }

    fn open(&mut self, rt: &HostRuntime, path: &str) -> Result<RecordFile, StableFault> {
        RecordFile::open(rt, path)
    }
}
