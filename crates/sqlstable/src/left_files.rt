//! Files that a run has left, closed in order.

ghost use Rattle.std.specs.Prelude.{IfOk, IsErrOf};
ghost use Rattle.sqlite.specs.Files.{image_of};
ghost use Rattle.sqlite_wal.specs.Files.{image_at};
ghost use Rattle.sqlite_wal.specs.Reads.{AreClean};
ghost use Rattle.sqlstable.specs.Files.{IsSettledFrom};

use crate::fault::file_fault_of;
use crate::storage::SqlStable;
use sqlite::{File, FileFrom, FileStore, Files, Start, Unknown};
use sqlite_disk::Disk;
use stable::StableFault;
use std::fs;

impl SqlStable<FileStore<File>> {
    /// Brings the log that a run has left beside a file into the file, and takes it away: the file alone has all records.
    ///
    /// `Device` where the file can't be used, where it is in use, and where it holds anything but the table of records.
    pub fn settle(rt: &HostRuntime, path: &str) -> Result<(), StableFault>
        ensures not_damaged { ¬ IsErrOf result StableFault.Damaged }
    {
        // They are locked until the log is gone, so that it is nobody else's.
        let _files = SqlStable::settle_from(rt, path, Unknown)?;
        let log = log_beside(rt, path)?;
        match fs::remove_file(rt, log.as_str()) {
            Ok(()) => Ok(()),
            Err(error) => Err(file_fault_of(&error)),
        }
    }
}

impl<F: Start> SqlStable<FileStore<FileFrom<F>>> {
    /// The same, but for the log, which is empty then and stays. `F` stands for what the two files hold, so that a clause can
    /// say that the records stay.
    pub fn settle_from(
        rt: &HostRuntime,
        path: &str,
        start: F,
    ) -> Result<Files<FileFrom<F>>, StableFault>
        ensures kept { IfOk result (λ files. AreClean (⟦<FileFrom<F> as Disk>⟧) files.log files.db
            → IsSettledFrom (image_at F.Start) (image_of (⟦<FileFrom<F> as Disk>⟧) files)) }
        ensures not_damaged { ¬ IsErrOf result StableFault.Damaged }
    {
        let store = SqlStable::open_from(rt, path, start)?;
        store.close_files()
    }
}

// The log of a file. It lies where a link leads.
fn log_beside(rt: &HostRuntime, path: &str) -> Result<String, StableFault>
    ensures not_damaged { ¬ IsErrOf result StableFault.Damaged }
{
    match fs::canonicalize(rt, path) {
        Ok(file) => Ok(format!(in rt.alloc(); "{}-wal", file.as_str())?),
        Err(error) => Err(file_fault_of(&error)),
    }
}
