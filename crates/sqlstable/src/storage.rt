//! The storage over a connection.

ghost use Rattle.sqlite.specs.Held.{state};
ghost use Rattle.sqlstable.specs.States.{TableIsSettled};

use crate::fault::fault_of;
use crate::key_bytes::{spelling, vote_key};
use crate::listed_keys::keys_in;
use crate::statements::{list, read, trim, write};
use sqlite::{Alter, Connection, Error, MemStore};
use stable::{Key, Stable, StableFault};
use std::alloc::Global;
use synod::SLOTS;

/// Records in a table of a database.
///
/// Want of memory is `Memory`. Any other refusal of the database is `Device` and is counted; it leaves the old records.
/// Where a failure shuts the connection, or the disk has returned something else than was written, or the failures can't
/// be counted in a u64 any more, the storage isn't honest from then on.
#[derive(Drop)]
pub struct SqlStable<S: Alter> {
    pub(crate) connection: Connection<S>,
    // How often it has failed; None once that can't be counted.
    failures: Option<u64>,
    ghost settled: { ∥ TableIsSettled (state S.Store connection) ∥₁ },
}

impl<S: Alter> SqlStable<S> {
    ghost use Rattle.std.specs.Prelude.{◌≡◌, ◌≢◌, Some, OnOk, IsErrOf};
    ghost use Rattle.stable.specs.Script.{counted};
    ghost use Rattle.sqlstable.specs.Storage.{TableChanges, TableReadFails, TableReads};
    ghost use Rattle.stable.specs.Records.{Sets, Trims};

    // A connection whose table is settled, with no failure yet.
    pub(crate) fn holding(connection: Connection<S>) -> SqlStable<S>
        requires { ∥ TableIsSettled (state S.Store connection) ∥₁ }
        ensures connection { result.connection ≡ connection }
        ensures unfailed { result.failures ≡ Some 0 }
    {
        SqlStable {
            connection,
            failures: Some(0),
        }
    }

    // The fault that an error is, which is counted where it isn't want of memory.
    fn blame(&mut self, error: &Error) -> StableFault
        ensures same { self.new.connection ≡ self.old.connection }
        ensures memory { result ≡ StableFault.Memory → self.new.failures ≡ self.old.failures }
        ensures device { result ≡ StableFault.Device → self.new.failures ≡ counted self.old.failures }
        ensures not_damaged { result ≢ StableFault.Damaged }
    {
        let fault = fault_of(error);
        if let StableFault::Device = fault {
            self.failures = match self.failures {
                Some(count) => count.checked_add(1),
                None => None,
            };
        }
        fault
    }

    // Takes out the votes at slots below this one, and leaves every other key.
    fn trim(&mut self, below: u32) -> Result<(), StableFault>
        ensures ok { OnOk result (TableChanges S.Store self.old (Trims below) self.new) }

        // Each error.
        ensures device { IsErrOf result StableFault.Device → TableReadFails S.Store self.old self.new }
        ensures memory { IsErrOf result StableFault.Memory → TableReads S.Store self.old self.new }
        ensures not_damaged { ¬ IsErrOf result StableFault.Damaged }
    {
        let end = vote_key(below.min(SLOTS));
        match trim(&mut self.connection, &end) {
            Ok(_removed) => Ok(()),
            Err(error) => Err(self.blame(&error)),
        }
    }

    // Makes the key hold these bytes, and leaves every other key.
    fn store(&mut self, key: Key, bytes: &[u8]) -> Result<(), StableFault>
        ensures ok { OnOk result (TableChanges S.Store self.old (Sets key bytes.now) self.new) }

        // Each error.
        ensures device { IsErrOf result StableFault.Device → TableReadFails S.Store self.old self.new }
        ensures memory { IsErrOf result StableFault.Memory → TableReads S.Store self.old self.new }
        ensures not_damaged { ¬ IsErrOf result StableFault.Damaged }
    {
        let (spelled, length) = spelling(key);
        match write(&mut self.connection, &spelled[..length], bytes) {
            Ok(_) => Ok(()),
            Err(refusal) => Err(self.blame(&refusal)),
        }
    }
}

impl<S: Alter> Stable for SqlStable<S> {
    ghost use Rattle.std.specs.Prelude.{◌≡◌, ℕ, ◌↔◌, List, IfOk, OnOk, IsErrOf};
    ghost use Rattle.sqlstable.specs.Keys.{HasStray, records_in};
    ghost use Rattle.sqlstable.specs.Storage.{TableChanges, IsSqlHonest, TableReadFails, TableReads};
    ghost use Rattle.sqlstable.specs.Storage.{failures_of, rows_of};
    ghost use Rattle.sqlstable.specs.Laws.{table_laws};

    ghost contents = { λ s. records_in (rows_of S.Store s) };

    ghost failures = { failures_of S.Store };

    ghost IsHonest = { IsSqlHonest S.Store };

    ghost HasStrayKey = { λ s. HasStray (rows_of S.Store s) };

    ghost IsSettled = { λ _. Unit {0} };

    ghost reads = { TableReads S.Store };

    ghost looks = { TableReads S.Store };

    ghost changes = { TableChanges S.Store };

    ghost read_fails = { TableReadFails S.Store };

    ghost fails = { λ a _ b. TableReadFails S.Store a b };

    fn get(&mut self, alloc: Global, key: Key) -> Result<Option<Vec<u8>>, StableFault> {
        let (spelled, length) = spelling(key);
        match read(&mut self.connection, &spelled[..length]) {
            Ok(found) => Ok(found),
            Err(error) => Err(self.blame(&error)),
        }
    }

    fn put(&mut self, alloc: Global, key: Key, bytes: Vec<u8>) -> Result<(), StableFault> {
        self.store(key, bytes.as_slice())
    }

    fn trim_below(&mut self, alloc: Global, below: u32) -> Result<(), StableFault> {
        self.trim(below)
    }

    fn keys(&mut self, alloc: Global) -> Result<Vec<Key>, StableFault> {
        match list(&mut self.connection) {
            Ok(rows) => keys_in(alloc, rows.as_slice()),
            Err(error) => Err(self.blame(&error)),
        }
    }

    ghost laws = { table_laws _ };
}

impl SqlStable<MemStore> {
    ghost use Rattle.std.specs.Prelude.{◌↔◌, IsTrue};
    ghost use Rattle.sqlite.specs.Steps.{over_memory};
    ghost use Rattle.sqlstable.specs.Storage.{IsSqlHonest};

    /// Whether the failures can be counted: in memory it is honest as long as that is so.
    pub fn can_count(&self) -> bool
        ensures honest { IsTrue result ↔ IsSqlHonest over_memory self.now }
    {
        self.failures.is_some()
    }
}
