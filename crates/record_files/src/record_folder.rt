//! FILEs, and the records of a replay's nodes in files: a database for each node, in one folder.

ghost use Rattle.std.specs.Prelude.{◌≡◌, ◌≢◌, ◌⊎◌, IfErr, IfOk, IsErrOf, string_bytes};
ghost use Rattle.record_files.specs.Opening.{is_rooted, path_in};

use crate::access::FileAccess;
use commands::{Archive, Failure};
use sqlstable::SqlStable;
use stable::StableFault;
use std::alloc::AllocError;
use std::fs;
use std::io::ErrorKind;
use wire::Nodes;

/// Files of SQLite, node i's records in `nodei.db` of the folder. A file is made where there is none; the folder isn't. An empty name is
/// no folder's: the files would be looked for at the root of all folders.
///
/// No name is special: a folder may be called `file:d` or `:memory:`.
#[derive(Clone, Copy, Debug)]
pub struct RecordFolder<A> {
    access: A,
}

impl<A: FileAccess> RecordFolder<A> {
    /// Files that are read and opened so.
    pub fn new(access: A) -> RecordFolder<A>
        ensures { result.access ≡ access }
    {
        RecordFolder { access }
    }
}

impl<A: FileAccess> Archive for RecordFolder<A> {
    ghost use Rattle.record_files.specs.Opening.{AreOpened, MayFail};

    type Records = A::Records;

    ghost reads = { λ a path bytes b. A.FileAccess.reads a.access path bytes b.access };

    ghost read_fails = { λ a path failure b. A.FileAccess.read_fails a.access path failure b.access };

    ghost opens = { λ _ folder _ stores _. AreOpened A.FileAccess folder stores };

    ghost open_fails = { λ _ folder count failure _. MayFail A.FileAccess folder count failure };

    fn read(&mut self, rt: &HostRuntime, path: &str) -> Result<Vec<u8>, Failure> {
        self.access.read(rt, path)
    }

    fn open(
        &mut self,
        rt: &HostRuntime,
        folder: &str,
        count: Nodes,
    ) -> Result<Vec<A::Records>, Failure> {
        if folder.is_empty() {
            return Err(Failure::Device);
        }
        let mut stores = Vec::with_capacity(rt.alloc(), usize::from(count.count()))?;
        for number in 0..count.count() {
            let store = open_file(rt, &mut self.access, folder, number)?;
            stores.push(store)?;
        }
        Ok(stores)
    }

    /// A file that was not closed in order has a log beside it. Nothing can be looked at under an empty name.
    fn has_unmerged_log(
        &mut self,
        rt: &HostRuntime,
        folder: &str,
        count: Nodes,
    ) -> Result<bool, AllocError> {
        if folder.is_empty() {
            return Ok(true);
        }
        for number in 0..count.count() {
            let path = path_of(rt, folder, number)?;
            if has_log(rt, path.as_str())? {
                return Ok(true);
            }
        }
        Ok(false)
    }

    /// Brings the logs that a run has left into the files beside which they lie, so that each file alone has its node's
    /// records. It stops at the first file that can't be used, as the opening did: that keeps its log, and the next opening
    /// finds both.
    fn merge_logs(&mut self, rt: &HostRuntime, folder: &str, count: Nodes) {
        if folder.is_empty() {
            return;
        }
        for number in 0..count.count() {
            if !is_settled(rt, folder, number) {
                return;
            }
        }
    }
}

/// Whether a log lies beside the file, or beside the one to which a link of its name leads, or under its name where there is no such
/// file. What can't be looked at is taken for one, so that nothing is changed there.
fn has_log(rt: &HostRuntime, path: &str) -> Result<bool, AllocError> {
    let log = match fs::canonicalize(rt, path) {
        Ok(file) => format!(in rt.alloc(); "{}-wal", file.as_str())?,
        Err(error) if error.kind() == ErrorKind::NotFound => format!(in rt.alloc(); "{path}-wal")?,
        Err(_) => return Ok(true),
    };
    match fs::symlink_metadata(rt, log.as_str()) {
        Ok(_) => Ok(true),
        Err(error) => Ok(error.kind() != ErrorKind::NotFound),
    }
}

/// Whether a node's file could be closed in order.
fn is_settled(rt: &HostRuntime, folder: &str, number: u8) -> bool {
    match path_of(rt, folder, number) {
        Ok(path) => SqlStable::settle(rt, path.as_str()).is_ok(),
        Err(_) => false,
    }
}

/// A node's records.
fn open_file<A: FileAccess>(
    rt: &HostRuntime,
    access: &mut A,
    folder: &str,
    number: u8,
) -> Result<A::Records, Failure>
    ensures opened { IfOk result (λ store. A.FileAccess.opens access.old (path_in folder.now number) store access.new) }
    ensures refused { IsErrOf result Failure.Device → (fault : StableFault)
        × A.FileAccess.open_fails access.old (path_in folder.now number) fault access.new × (fault ≢ StableFault.Memory) }
    ensures either { IfErr result (λ failure. (failure ≡ Failure.Device) ⊎ (failure ≡ Failure.Memory)) }
{
    let path = path_of(rt, folder, number)?;
    match access.open(rt, path.as_str()) {
        Ok(store) => Ok(store),
        Err(fault) => Err(storage_failure(fault)),
    }
}

/// Where a node's records are.
fn path_of(rt: &HostRuntime, folder: &str, number: u8) -> Result<String, AllocError>
    ensures { IfOk result (λ path. string_bytes path ≡ path_in folder.now number) }
{
    if begins_at_root(folder.as_bytes()) {
        format!(in rt.alloc(); "{folder}/node{number}.db")
    } else {
        format!(in rt.alloc(); "./{folder}/node{number}.db")
    }
}

/// Whether the path begins at the root of all folders.
fn begins_at_root(folder: &[u8]) -> bool
    ensures { result ≡ is_rooted folder.now }
{
    match folder {
        [] => false,
        [first, ..] => *first == b'/',
    }
}

/// What a storage's fault is to the program.
fn storage_failure(fault: StableFault) -> Failure
    ensures memory { fault ≡ StableFault.Memory → result ≡ Failure.Memory }
    ensures device { fault ≢ StableFault.Memory → result ≡ Failure.Device }
    ensures either { (result ≡ Failure.Device) ⊎ (result ≡ Failure.Memory) }
{
    match fault {
        StableFault::Memory => Failure::Memory,
        StableFault::Device | StableFault::Damaged => Failure::Device,
    }
}
