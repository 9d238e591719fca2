//! Records in a table: in memory, and in a file.

use super::calls::{fill, is_filled, is_trimmed, keeps_records, trims_records};
use commands::Archive;
use record_files::{RecordFile, RecordFolder, System};
use sqlite::{Connection, Error, MemStore, Options, params};
use sqlstable::SqlStable;
use stable::{Stable, StableFault};
use std::alloc::Global;
use std::fs;
use wire::Nodes;

// Whether a storage in memory keeps what is put, and can count its failures.
fn memory_keeps(alloc: Global) -> Result<bool, StableFault> {
    let mut storage = SqlStable::open_in_memory(alloc)?;
    let keeps = keeps_records(alloc, &mut storage);
    Ok(storage.can_count() && keeps?)
}

// A test holds no storage: each of its ends would drop it, and each drop is checked.
#[test]
fn memory_keeps_records(rt: HostRuntime) {
    assert_eq!(rt; memory_keeps(rt.alloc()), Ok(true));
}

// Whether a storage in memory is trimmed.
fn memory_trims(alloc: Global) -> Result<bool, StableFault> {
    let mut storage = SqlStable::open_in_memory(alloc)?;
    let trims = trims_records(alloc, &mut storage);
    Ok(storage.can_count() && trims?)
}

#[test]
fn memory_is_trimmed(rt: HostRuntime) {
    assert_eq!(rt; memory_trims(rt.alloc()), Ok(true));
}

// A database in memory, made by these two texts.
fn database(alloc: Global, table: &str, row: &str) -> Result<Connection<MemStore>, Error> {
    let mut connection = Connection::open_in_memory(alloc)?;
    connection.execute(table, params![])?;
    connection.execute(row, params![])?;
    Ok(connection)
}

// Another name, values of any kind, keys that may come twice, a column more.
const OTHERS: [(&str, &str); 4] = [
    (
        "CREATE TABLE records (k BLOB PRIMARY KEY NOT NULL, v BLOB NOT NULL) STRICT",
        "INSERT INTO records VALUES (X'50', X'00')",
    ),
    (
        "CREATE TABLE record (k BLOB PRIMARY KEY NOT NULL, v BLOB NOT NULL)",
        "INSERT INTO record VALUES ('P', 80)",
    ),
    (
        "CREATE TABLE record (k BLOB NOT NULL, v BLOB NOT NULL) STRICT",
        "INSERT INTO record VALUES (X'50', X'00')",
    ),
    (
        "CREATE TABLE record (k BLOB PRIMARY KEY NOT NULL, v BLOB NOT NULL, w BLOB) STRICT",
        "INSERT INTO record VALUES (X'50', X'00', X'00')",
    ),
];

// The fault of a storage over a database that these two texts make; None where there is a storage.
fn fault_over(alloc: Global, table: &str, row: &str) -> Result<Option<StableFault>, Error> {
    match SqlStable::over(database(alloc, table, row)?) {
        Ok(_storage) => Ok(None),
        Err(fault) => Ok(Some(fault)),
    }
}

fn is_refused(alloc: Global, table: &str, row: &str) -> bool {
    match fault_over(alloc, table, row) {
        Ok(fault) => fault == Some(StableFault::Device),
        Err(_) => false,
    }
}

#[test]
fn another_table_is_refused(rt: HostRuntime) {
    for (table, row) in OTHERS {
        assert!(rt; is_refused(rt.alloc(), table, row), "{table}");
    }
}

const FOLDER: &str = "sqlstable_test";

const PATH: &str = "sqlstable_test/node0.db";

// What a run leaves: its storage is dropped and not closed.
fn leave_a_file(rt: &HostRuntime, path: &str) -> Result<bool, StableFault> {
    let mut storage = RecordFile::open(rt, path)?;
    fill(rt.alloc(), &mut storage)?;
    is_filled(rt.alloc(), &mut storage)
}

// A file is opened, closed and opened again, and closed.
fn close_a_file(rt: &HostRuntime, path: &str) -> Result<(), StableFault> {
    let storage = SqlStable::open(rt, path)?;
    storage.reopen(rt.alloc(), Options::new(2))?.close()
}

// Whether a file that is opened holds what `fill` puts.
fn is_file_filled(rt: &HostRuntime, path: &str) -> Result<bool, StableFault> {
    let mut storage = RecordFile::open(rt, path)?;
    is_filled(rt.alloc(), &mut storage)
}

#[test]
fn a_file_keeps_records(rt: HostRuntime) {
    let _ = fs::remove_dir_all(&rt, FOLDER);
    assert!(rt; fs::create_dir(&rt, FOLDER).is_ok());
    assert_eq!(rt; leave_a_file(&rt, PATH), Ok(true));
    assert_eq!(rt; close_a_file(&rt, PATH), Ok(()));
    assert_eq!(rt; is_file_filled(&rt, PATH), Ok(true));
    assert!(rt; is_file_filled(&rt, FOLDER).is_err());
    assert!(rt; fs::remove_dir_all(&rt, FOLDER).is_ok());
}

// Below `out`, which no checkout keeps: the file stays there, for `check/trimmed_file.py`.
const TRIM_FOLDER: &str = "out/trimmed";

const TRIM_PATH: &str = "out/trimmed/node0.db";

// A file is trimmed, and left as a run leaves it.
fn trim_a_file(rt: &HostRuntime, path: &str) -> Result<bool, StableFault> {
    let mut storage = RecordFile::open(rt, path)?;
    fill(rt.alloc(), &mut storage)?;
    storage.trim_below(rt.alloc(), 700)?;
    is_trimmed(rt.alloc(), &mut storage)
}

// Whether a file that is opened holds what a trim left.
fn is_file_trimmed(rt: &HostRuntime, path: &str) -> Result<bool, StableFault> {
    let mut storage = RecordFile::open(rt, path)?;
    is_trimmed(rt.alloc(), &mut storage)
}

#[test]
fn a_file_is_trimmed(rt: HostRuntime) {
    let _ = fs::remove_dir_all(&rt, TRIM_FOLDER);
    assert!(rt; fs::create_dir_all(&rt, TRIM_FOLDER).is_ok());
    assert_eq!(rt; trim_a_file(&rt, TRIM_PATH), Ok(true));
    assert_eq!(rt; close_a_file(&rt, TRIM_PATH), Ok(()));
    assert_eq!(rt; is_file_trimmed(&rt, TRIM_PATH), Ok(true));
    assert_eq!(rt; close_a_file(&rt, TRIM_PATH), Ok(()));
}

const RUN_FOLDER: &str = "sqlstable_run_test";

const RUN_PATH: &str = "sqlstable_run_test/node0.db";

const RUN_LOG: &str = "sqlstable_run_test/node0.db-wal";

const ARCHIVE: &str = "archive_test";

const FIRST_FILE: &str = "archive_test/node0.db";

// Settles the file, and reads its bytes.
fn settled_bytes(rt: &HostRuntime) -> Result<Vec<u8>, StableFault> {
    SqlStable::settle(rt, RUN_PATH)?;
    match fs::read(rt, RUN_PATH) {
        Ok(bytes) => Ok(bytes),
        Err(_) => Err(StableFault::Device),
    }
}

// Whether a file that is settled again has the same bytes.
fn settles_once(rt: &HostRuntime) -> Result<bool, StableFault> {
    let first = settled_bytes(rt)?;
    let again = settled_bytes(rt)?;
    Ok(first.as_slice() == again.as_slice())
}

#[test]
fn a_settled_file_is_alone(rt: HostRuntime) {
    let _ = fs::remove_dir_all(&rt, RUN_FOLDER);
    assert!(rt; fs::create_dir(&rt, RUN_FOLDER).is_ok());
    assert_eq!(rt; leave_a_file(&rt, RUN_PATH), Ok(true));
    assert!(rt; fs::symlink_metadata(&rt, RUN_LOG).is_ok());
    assert_eq!(rt; settles_once(&rt), Ok(true));
    assert!(rt; fs::symlink_metadata(&rt, RUN_LOG).is_err());
    assert_eq!(rt; is_file_filled(&rt, RUN_PATH), Ok(true));
    assert!(rt; fs::remove_dir_all(&rt, RUN_FOLDER).is_ok());
}

// No file is looked for at the root of all folders, and none is made or settled there.
#[test]
fn an_empty_name_is_no_folder(rt: HostRuntime) {
    let nodes = Nodes::new(3).unwrap();
    assert_eq!(rt;
        RecordFolder::new(System).has_unmerged_log(&rt, "", nodes),
        Ok(true)
    );
    assert!(rt; is_no_folder(&rt, "", nodes));
    RecordFolder::new(System).merge_logs(&rt, "", nodes);
    assert!(rt; fs::symlink_metadata(&rt, "/node0.db").is_err());
}

// Whether no records can be kept under this name.
fn is_no_folder(rt: &HostRuntime, folder: &str, nodes: Nodes) -> bool {
    RecordFolder::new(System).open(rt, folder, nodes).is_err()
}

// What a run has left open is seen by its log, and closed in order under the names by which a run finds it.
#[test]
fn an_archive_settles_its_files(rt: HostRuntime) {
    let nodes = Nodes::new(3).unwrap();
    let _ = fs::remove_dir_all(&rt, ARCHIVE);
    assert!(rt; fs::create_dir(&rt, ARCHIVE).is_ok());
    assert_eq!(rt;
        RecordFolder::new(System).has_unmerged_log(&rt, ARCHIVE, nodes),
        Ok(false)
    );
    assert_eq!(rt; leave_a_file(&rt, FIRST_FILE), Ok(true));
    assert_eq!(rt;
        RecordFolder::new(System).has_unmerged_log(&rt, ARCHIVE, nodes),
        Ok(true)
    );
    RecordFolder::new(System).merge_logs(&rt, ARCHIVE, nodes);
    assert_eq!(rt;
        RecordFolder::new(System).has_unmerged_log(&rt, ARCHIVE, nodes),
        Ok(false)
    );
    assert_eq!(rt; is_file_filled(&rt, FIRST_FILE), Ok(true));
    assert!(rt; fs::remove_dir_all(&rt, ARCHIVE).is_ok());
}
