//! Storages over files: closing one, and opening what it left.

ghost use Rattle.std.specs.Prelude.{◌≡◌, IsTrue, IfOk, IsErrOf};
ghost use Rattle.sqlite.specs.Files.{image_of, over_files};
ghost use Rattle.sqlite.specs.Held.{state};
ghost use Rattle.sqlite_wal.specs.Reads.{AreClean};
ghost use Rattle.sqlstable.specs.Files.{AreThoseHeld, HoldRowsAlone};
ghost use Rattle.sqlstable.specs.States.{IsUsable};
ghost use Rattle.sqlstable.specs.Storage.{HasCleanStore, IsSqlHonest, IsUnfailed, rows_of};

use crate::fault::or_fault;
use crate::storage::SqlStable;
use sqlite::{Connection, FileStore, Files, Options};
use sqlite_disk::Disk;
use stable::StableFault;
use std::alloc::Global;

impl<D: Disk + Drop> SqlStable<FileStore<D>> {
    /// The storage that these files hold, or a new one where they hold no database.
    ///
    /// `Device` where they can't be used, or hold anything but the table of records.
    pub fn open_files(
        alloc: Global,
        files: Files<D>,
        options: Options,
    ) -> Result<SqlStable<FileStore<D>>, StableFault>
        requires log { IsTrue (D.Disk.is_usable files.log) }
        requires db { IsTrue (D.Disk.is_usable files.db) }
        ensures clean { IfOk result (λ s. IsSqlHonest over_files s
            → AreClean D.Disk files.log files.db) }
        ensures usable { IfOk result (λ s. HasCleanStore over_files s → IsSqlHonest over_files s) }
        ensures found { IfOk result (λ s. IsSqlHonest over_files s
            → AreThoseHeld (image_of D.Disk files) (rows_of over_files s)) }
        ensures unfailed { IfOk result (IsUnfailed over_files) }
        ensures not_damaged { ¬ IsErrOf result StableFault.Damaged }
    {
        let connection = or_fault(Connection::open_files(alloc, files, options))?;
        SqlStable::in_files(connection)
    }

    /// Closes the storage and gives its files back. All its records are in the database file then, which needs no log.
    pub fn close_files(self) -> Result<Files<D>, StableFault>
        ensures usable { IfOk result (λ files. IsTrue (D.Disk.is_usable files.log)
            × IsTrue (D.Disk.is_usable files.db)) }
        ensures closed { IfOk result (λ files. AreClean D.Disk files.log files.db
            → HoldRowsAlone (image_of D.Disk files) (rows_of over_files self)) }
        ensures was_usable { IfOk result (λ files. AreClean D.Disk files.log files.db
            → IsUsable (state over_files self.connection)) }
        ensures not_damaged { ¬ IsErrOf result StableFault.Damaged }
    {
        or_fault(self.connection.close_files())
    }

    /// Closes the storage and opens it again. It has the same records.
    pub fn reopen(
        self,
        alloc: Global,
        options: Options,
    ) -> Result<SqlStable<FileStore<D>>, StableFault>
        ensures same { IfOk result (λ again. IsSqlHonest over_files again
            → rows_of over_files again ≡ rows_of over_files self) }
        ensures unfailed { IfOk result (IsUnfailed over_files) }
        ensures not_damaged { ¬ IsErrOf result StableFault.Damaged }
    {
        let files = self.close_files()?;
        SqlStable::open_files(alloc, files, options)
    }

    /// Closes the storage and its files, as a run's orderly end does.
    pub fn close(self) -> Result<(), StableFault>
        ensures not_damaged { ¬ IsErrOf result StableFault.Damaged }
    {
        let _files = self.close_files()?;
        Ok(())
    }
}
