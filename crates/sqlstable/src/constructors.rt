//! Opening a storage.

ghost use Rattle.std.specs.Prelude.{◌≡◌, [], Ok, IfOk, IsTrue, OnOk, IsErrOf};
ghost use Rattle.sqlite.specs.Held.{state};
ghost use Rattle.sqlite.specs.State.{HasCleanDisk};
ghost use Rattle.sqlstable.specs.States.{TableIsSound, IsUsable, table};
ghost use Rattle.sqlstable.specs.Files.{FindsTable};
ghost use Rattle.sqlstable.specs.Storage.{HasCleanStore, IsSqlHonest, IsUnfailed, rows_of};
ghost use Rattle.sqlstable.specs.Table.{no_schema};

use crate::fault::{fault_of, or_fault};
use crate::schema::{is_blank, is_ours};
use crate::statements::create;
use crate::storage::SqlStable;
use crate::survey::survey;
use sqlite::{
    Alter, Connection, Error, File, FileFrom, FileStore, Leftover, MemStore, Start, Unknown,
};
use sqlite_disk::Disk;
use stable::StableFault;
use std::alloc::Global;

impl SqlStable<MemStore> {
    ghost use Rattle.sqlite.specs.Steps.{over_memory};

    /// Records in memory, and none yet.
    pub fn open_in_memory(alloc: Global) -> Result<SqlStable<MemStore>, StableFault>
        ensures honest { IfOk result (IsSqlHonest over_memory) }
        ensures empty { IfOk result (λ s. rows_of over_memory s ≡ []) }
        ensures not_damaged { ¬ IsErrOf result StableFault.Damaged }
    {
        let mut connection = Connection::open_in_memory(alloc)?;
        match create(&mut connection) {
            Ok(_) => Ok(SqlStable::holding(connection)),
            Err(error) => Err(fault_of(&error)),
        }
    }
}

impl SqlStable<FileStore<File>> {
    ghost use Rattle.sqlite.specs.Files.{over_files};

    /// The records in a file, which is made where there is none. Its log lies beside it under the same name with `-wal`.
    ///
    /// `Device` where the file can't be used, where it is in use, and where it holds anything but the table of records.
    pub fn open(rt: &HostRuntime, path: &str) -> Result<SqlStable<FileStore<File>>, StableFault>
        ensures usable { IfOk result (λ s. HasCleanStore over_files s → IsSqlHonest over_files s) }
        ensures unfailed { IfOk result (IsUnfailed over_files) }
        ensures not_damaged { ¬ IsErrOf result StableFault.Damaged }
    {
        SqlStable::open_from(rt, path, Unknown)
    }
}

impl<F: Start> SqlStable<FileStore<FileFrom<F>>> {
    ghost use Rattle.sqlite.specs.Files.{over_files};
    ghost use Rattle.sqlite_wal.specs.Files.{image_at};
    ghost use Rattle.sqlstable.specs.Files.{AreThoseHeld};

    /// The same, where `F` stands for what the two files hold, so that a clause can say what is found.
    pub fn open_from(
        rt: &HostRuntime,
        path: &str,
        start: F,
    ) -> Result<SqlStable<FileStore<FileFrom<F>>>, StableFault>
        ensures found { IfOk result (λ s. IsSqlHonest over_files s
            → AreThoseHeld (image_at F.Start) (rows_of over_files s)) }
        ensures usable { IfOk result (λ s. HasCleanStore over_files s → IsSqlHonest over_files s) }
        ensures unfailed { IfOk result (IsUnfailed over_files) }
        ensures not_damaged { ¬ IsErrOf result StableFault.Damaged }
    {
        SqlStable::opened(Connection::open_from(rt, path, false, start))
    }
}

impl<D: Disk + Drop> SqlStable<FileStore<D>> {
    ghost use Rattle.sqlite.specs.Files.{over_files};

    /// The storage in a database that files hold. `over` is called at them here alone, as it takes much to prove that it may be.
    pub(crate) fn in_files(
        connection: Connection<FileStore<D>>,
    ) -> Result<SqlStable<FileStore<D>>, StableFault>
        ensures found { IfOk result (λ s. IsSqlHonest over_files s
            → FindsTable (state over_files connection) (rows_of over_files s)) }
        ensures usable { IfOk result (λ s. HasCleanStore over_files s → IsSqlHonest over_files s) }
        ensures unfailed { IfOk result (IsUnfailed over_files) }
        ensures not_damaged { ¬ IsErrOf result StableFault.Damaged }
    {
        SqlStable::over(connection)
    }

    // The storage in the database that an open gave. What it left besides an error is dropped.
    fn opened(
        outcome: Result<Connection<FileStore<D>>, (Error, Option<Leftover<D>>)>,
    ) -> Result<SqlStable<FileStore<D>>, StableFault>
        ensures found { IfOk result (λ s. IsSqlHonest over_files s
            → (connection : _) × (outcome ≡ Ok connection)
            × FindsTable (state over_files connection) (rows_of over_files s)) }
        ensures usable { IfOk result (λ s. HasCleanStore over_files s → IsSqlHonest over_files s) }
        ensures unfailed { IfOk result (IsUnfailed over_files) }
        ensures not_damaged { ¬ IsErrOf result StableFault.Damaged }
    {
        let connection = or_fault(outcome)?;
        SqlStable::in_files(connection)
    }
}

impl<S: Alter + Drop> SqlStable<S> {
    /// The storage in a database: its table of records, or a new one where nothing is there.
    ///
    /// `Device` where anything else is there.
    pub fn over(mut connection: Connection<S>) -> Result<SqlStable<S>, StableFault>
        ensures found { IfOk result (λ s. IsSqlHonest S.Store s
            → FindsTable (state S.Store connection) (rows_of S.Store s)) }
        ensures usable { IfOk result (λ s. HasCleanStore S.Store s → IsSqlHonest S.Store s) }
        ensures unfailed { IfOk result (IsUnfailed S.Store) }
        ensures not_damaged { ¬ IsErrOf result StableFault.Damaged }
    {
        prepare(&mut connection)?;
        Ok(SqlStable::holding(connection))
    }
}

// Makes the table where nothing is there, and else looks whether what is there is the table.
fn prepare<S: Alter>(connection: &mut Connection<S>) -> Result<(), StableFault>
    ensures sound { IsUsable (state S.Store connection.new)
        → OnOk result (TableIsSound (state S.Store connection.new)) }
    ensures found { IsUsable (state S.Store connection.new)
        → OnOk result (FindsTable (state S.Store connection.old) (table (state S.Store connection.new))) }
    ensures opened { HasCleanDisk (state S.Store connection.new)
        → OnOk result (IsTrue (state S.Store connection.new).is_open) }
    ensures not_damaged { ¬ IsErrOf result StableFault.Damaged }
{
    if is_blank(connection.schema()) {
        return begin(connection);
    }
    if !is_ours(connection.schema()) {
        return Err(StableFault::Device);
    }
    match survey(connection) {
        Ok(true) => Ok(()),
        Ok(false) => Err(StableFault::Device),
        Err(error) => Err(fault_of(&error)),
    }
}

// Makes the table. A connection with a transaction is refused, as the table would wait for its end.
fn begin<S: Alter>(connection: &mut Connection<S>) -> Result<(), StableFault>
    requires blank { connection.old.schema ≡ no_schema }
    ensures sound { IsUsable (state S.Store connection.new)
        → OnOk result (TableIsSound (state S.Store connection.new)) }
    ensures empty { IsUsable (state S.Store connection.new)
        → OnOk result (table (state S.Store connection.new) ≡ []) }
    ensures was_usable { IsUsable (state S.Store connection.new)
        → OnOk result (IsUsable (state S.Store connection.old)) }
    ensures opened { HasCleanDisk (state S.Store connection.new)
        → OnOk result (IsTrue (state S.Store connection.new).is_open) }
    ensures not_damaged { ¬ IsErrOf result StableFault.Damaged }
{
    if !connection.is_autocommit() {
        return Err(StableFault::Device);
    }
    match create(connection) {
        Ok(_) => Ok(()),
        Err(error) => Err(fault_of(&error)),
    }
}
