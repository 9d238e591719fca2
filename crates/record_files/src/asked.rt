//! What a table over files is asked for as a storage.
//!
//! Each call by which such a table is handed to a function over any storage takes a quarter of a minute to prove. So here is the
//! only one, whatever is asked for, and one that drops the table.

ghost use Rattle.record_files.specs.Asking.{StorageAnswers};
ghost use Rattle.sqlite.specs.Files.{over_files};
ghost use Rattle.sqlstable.specs.Storage.{in_table};

use sqlite::FileStore;
use sqlite_disk::Disk;
use sqlstable::SqlStable;
use stable::{Key, Stable, StableFault};
use std::alloc::Global;

/// What is asked for: a method of `Stable`, and what it is called with.
pub(crate) enum Asked {
    Get(Key),
    Put(Key, Vec<u8>),
    TrimBelow(u32),
    Keys,
}

/// What the methods answer, in the same order.
#[derive(Drop)]
pub(crate) enum Answer {
    Found(Option<Vec<u8>>),
    Done,
    Listed(Vec<Key>),
}

/// Calls the method of a table over files.
pub(crate) fn ask<D: Disk>(
    table: &mut SqlStable<FileStore<D>>,
    alloc: Global,
    asked: Asked,
) -> Result<Answer, StableFault>
    ensures { StorageAnswers (in_table over_files) table.old asked result table.new }
{
    ask_any(table, alloc, asked)
}

// Calls the method of any storage.
fn ask_any<S: Stable>(storage: &mut S, alloc: Global, asked: Asked) -> Result<Answer, StableFault>
    ensures { StorageAnswers S.Stable storage.old asked result storage.new }
{
    match asked {
        Asked::Get(key) => Ok(Answer::Found(storage.get(alloc, key)?)),
        Asked::Put(key, bytes) => {
            storage.put(alloc, key, bytes)?;
            Ok(Answer::Done)
        }
        Asked::TrimBelow(below) => {
            storage.trim_below(alloc, below)?;
            Ok(Answer::Done)
        }
        Asked::Keys => Ok(Answer::Listed(storage.keys(alloc)?)),
    }
}

/// Drops the table, which isn't closed.
pub(crate) fn leave<D: Disk + Drop>(_table: SqlStable<FileStore<D>>) {}
