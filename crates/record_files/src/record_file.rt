//! One node's records in a file.

ghost use Rattle.std.specs.Prelude.{IfOk, IsErrOf};
ghost use Rattle.sqlite.specs.Files.{over_files};
ghost use Rattle.sqlstable.specs.Keys.{HasStray, records_in};
ghost use Rattle.sqlstable.specs.Storage.{TableChanges, HasCleanStore, IsSqlHonest, IsUnfailed, TableReadFails, TableReads, failures_of, rows_of};

use crate::asked::{Answer, Asked, ask, leave};
use sqlite::{File, FileStore};
use sqlstable::SqlStable;
use stable::{Key, Stable, StableFault};
use std::alloc::Global;

/// One node's records, in a table of a file's database.
///
/// It is the table, and means what that means: but whoever holds it needs to prove nothing of a database.
pub struct RecordFile {
    table: SqlStable<FileStore<File>>,
}

impl RecordFile {
    /// The records in a file, which is made where there is none. Its log lies beside it under the same name with `-wal`.
    ///
    /// `Device` where the file can't be used, where it is in use, and where it holds anything but the table of records.
    pub fn open(rt: &HostRuntime, path: &str) -> Result<RecordFile, StableFault>
        ensures usable { IfOk result (λ n. HasCleanStore over_files n.table → IsSqlHonest over_files n.table) }
        ensures unfailed { IfOk result (λ n. IsUnfailed over_files n.table) }
        ensures not_damaged { ¬ IsErrOf result StableFault.Damaged }
    {
        let table = SqlStable::open(rt, path)?;
        Ok(RecordFile { table })
    }
}

impl Drop for RecordFile {
    fn drop(self) {
        let RecordFile { table } = self;
        leave(table);
    }
}

impl Stable for RecordFile {
    ghost use Rattle.record_files.specs.Laws.{seen_laws};
    ghost use Rattle.sqlstable.specs.Laws.{table_laws};

    ghost contents = { λ n. records_in (rows_of over_files n.table) };

    ghost failures = { λ n. failures_of over_files n.table };

    ghost IsHonest = { λ n. IsSqlHonest over_files n.table };

    ghost HasStrayKey = { λ n. HasStray (rows_of over_files n.table) };

    ghost IsSettled = { λ _. Unit {0} };

    ghost reads = { λ a b. TableReads over_files a.table b.table };

    ghost looks = { λ a b. TableReads over_files a.table b.table };

    ghost changes = { λ a change b. TableChanges over_files a.table change b.table };

    ghost read_fails = { λ a b. TableReadFails over_files a.table b.table };

    ghost fails = { λ a _ b. TableReadFails over_files a.table b.table };

    fn get(&mut self, alloc: Global, key: Key) -> Result<Option<Vec<u8>>, StableFault> {
        match ask(&mut self.table, alloc, Asked::Get(key))? {
            Answer::Found(found) => Ok(found),
            _ => unreachable!(),
        }
    }

    fn put(&mut self, alloc: Global, key: Key, bytes: Vec<u8>) -> Result<(), StableFault> {
        match ask(&mut self.table, alloc, Asked::Put(key, bytes))? {
            Answer::Done => Ok(()),
            _ => unreachable!(),
        }
    }

    fn trim_below(&mut self, alloc: Global, below: u32) -> Result<(), StableFault> {
        match ask(&mut self.table, alloc, Asked::TrimBelow(below))? {
            Answer::Done => Ok(()),
            _ => unreachable!(),
        }
    }

    fn keys(&mut self, alloc: Global) -> Result<Vec<Key>, StableFault> {
        match ask(&mut self.table, alloc, Asked::Keys)? {
            Answer::Listed(keys) => Ok(keys),
            _ => unreachable!(),
        }
    }

    ghost laws = { seen_laws (λ n. n.table) (table_laws over_files) };
}
