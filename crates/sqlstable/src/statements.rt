//! The statements over a connection: a function for each text, above one that runs any text of that meaning.
//!
//! The connection keeps the plans of the texts that it ran, so each text is compiled once.

ghost use Rattle.std.specs.Prelude.{◌≡◌, false, [], IsTrue, OnErr, OnOk, IfOk, option_map};
ghost use Rattle.sqlite.specs.Held.{state};
ghost use Rattle.sqlite.specs.State.{HasCleanDisk, IsUnchanged};
ghost use Rattle.sqlstable.specs.Table.{no_schema, record_schema};
ghost use Rattle.sqlstable.specs.Texts.{IsListing, IsLookup, IsMaking, StatementPuts, IsTrim};
ghost use Rattle.sqlstable.specs.States.{Follows, TableIsSound, IsUsable, table};
ghost use Rattle.sqlstable.specs.Rows.{PutsRow, TrimsRows, value_at};
ghost use Rattle.sqlstable.specs.Keys.{votes};
ghost use Rattle.sqlstable.specs.Lists.{ListsKeys, TellsValue};

use sqlite::{Alter, Connection, Error, Row, params};

/// Makes the table, where nothing is there.
pub fn create<S: Alter>(connection: &mut Connection<S>) -> Result<usize, Error>
    requires blank { connection.old.schema ≡ no_schema }
    requires autocommit { connection.old.in_transaction ≡ false }
    ensures was_usable { IsUsable (state S.Store connection.new)
        → IsUsable (state S.Store connection.old) }
    ensures opened { HasCleanDisk (state S.Store connection.new)
        → OnOk result (IsTrue (state S.Store connection.new).is_open) }
    ensures made { HasCleanDisk (state S.Store connection.new)
        → OnOk result (TableIsSound (state S.Store connection.new)
        × (table (state S.Store connection.new) ≡ [])) }
{
    run_making(
        connection,
        "CREATE TABLE record (k BLOB PRIMARY KEY NOT NULL, v BLOB NOT NULL) STRICT",
    )
}

/// Makes the key hold these bytes, in a transaction of its own.
pub fn write<S: Alter>(
    connection: &mut Connection<S>,
    key: &[u8],
    bytes: &[u8],
) -> Result<usize, Error>
    ensures follows { Follows (state S.Store connection.old) (state S.Store connection.new) }
    ensures wrote { IsUsable (state S.Store connection.new)
        → TableIsSound (state S.Store connection.old)
        → OnOk result (PutsRow key.now bytes.now
        (table (state S.Store connection.old)) (table (state S.Store connection.new))) }
    ensures refused { IsUsable (state S.Store connection.new)
        → TableIsSound (state S.Store connection.old)
        → OnErr result (table (state S.Store connection.new)
        ≡ table (state S.Store connection.old)) }
{
    run_put(
        connection,
        "INSERT INTO record (k, v) VALUES (?1, ?2) ON CONFLICT (k) DO UPDATE SET v = excluded.v",
        key,
        bytes,
    )
}

/// Takes out the rows of votes whose keys are below these bytes, in a transaction of its own.
pub fn trim<S: Alter>(connection: &mut Connection<S>, end: &[u8]) -> Result<usize, Error>
    ensures follows { Follows (state S.Store connection.old) (state S.Store connection.new) }
    ensures trimmed { IsUsable (state S.Store connection.new)
        → TableIsSound (state S.Store connection.old)
        → OnOk result (TrimsRows votes end.now
        (table (state S.Store connection.old)) (table (state S.Store connection.new))) }
    ensures refused { IsUsable (state S.Store connection.new)
        → TableIsSound (state S.Store connection.old)
        → OnErr result (table (state S.Store connection.new)
        ≡ table (state S.Store connection.old)) }
{
    run_trim(
        connection,
        "DELETE FROM record WHERE k >= X'56' AND k < ?1",
        end,
    )
}

/// The bytes that the key holds, or None where no row has it.
pub fn read<S: Alter>(connection: &mut Connection<S>, key: &[u8]) -> Result<Option<Vec<u8>>, Error>
    ensures follows { Follows (state S.Store connection.old) (state S.Store connection.new) }
    ensures same { IsUsable (state S.Store connection.new)
        → TableIsSound (state S.Store connection.old)
        → table (state S.Store connection.new) ≡ table (state S.Store connection.old) }
    ensures told { IsUsable (state S.Store connection.new)
        → TableIsSound (state S.Store connection.old)
        → IfOk result (λ found. option_map (λ bytes. bytes.items) found
        ≡ value_at key.now (table (state S.Store connection.old))) }
{
    let rows = run_lookup(connection, "SELECT v FROM record WHERE k = ?1", key)?;
    first_value(rows.as_slice())
}

/// The keys of all rows in order, each with the number of its row.
pub fn list<S: Alter>(connection: &mut Connection<S>) -> Result<Vec<Row>, Error>
    ensures follows { Follows (state S.Store connection.old) (state S.Store connection.new) }
    ensures same { IsUsable (state S.Store connection.new)
        → TableIsSound (state S.Store connection.old)
        → table (state S.Store connection.new) ≡ table (state S.Store connection.old) }
    ensures listed { HasCleanDisk (state S.Store connection.new)
        → connection.old.schema ≡ record_schema
        → IfOk result (λ rows. ListsKeys (table (state S.Store connection.old)) rows.items) }
    ensures unchanged { HasCleanDisk (state S.Store connection.new)
        → connection.old.schema ≡ record_schema
        → OnOk result (IsUnchanged (state S.Store connection.old) (state S.Store connection.new)) }
{
    run_listing(connection, "SELECT k, rowid FROM record ORDER BY k")
}

// Runs a text that makes the table.
fn run_making<S: Alter>(connection: &mut Connection<S>, sql: &str) -> Result<usize, Error>
    requires making { IsMaking sql.now }
    requires blank { connection.old.schema ≡ no_schema }
    requires autocommit { connection.old.in_transaction ≡ false }
    ensures was_usable { IsUsable (state S.Store connection.new)
        → IsUsable (state S.Store connection.old) }
    ensures opened { HasCleanDisk (state S.Store connection.new)
        → OnOk result (IsTrue (state S.Store connection.new).is_open) }
    ensures made { HasCleanDisk (state S.Store connection.new)
        → OnOk result (TableIsSound (state S.Store connection.new)
        × (table (state S.Store connection.new) ≡ [])) }
{
    connection.execute(sql, &[])
}

// Runs a text that puts bytes under a key.
fn run_put<S: Alter>(
    connection: &mut Connection<S>,
    sql: &str,
    key: &[u8],
    bytes: &[u8],
) -> Result<usize, Error>
    requires put { StatementPuts sql.now }
    ensures follows { Follows (state S.Store connection.old) (state S.Store connection.new) }
    ensures wrote { IsUsable (state S.Store connection.new)
        → TableIsSound (state S.Store connection.old)
        → OnOk result (PutsRow key.now bytes.now
        (table (state S.Store connection.old)) (table (state S.Store connection.new))) }
    ensures refused { IsUsable (state S.Store connection.new)
        → TableIsSound (state S.Store connection.old)
        → OnErr result (table (state S.Store connection.new)
        ≡ table (state S.Store connection.old)) }
{
    connection.execute(sql, params![key, bytes])
}

// Runs a text that takes out rows of votes.
fn run_trim<S: Alter>(connection: &mut Connection<S>, sql: &str, end: &[u8]) -> Result<usize, Error>
    requires trim { IsTrim sql.now }
    ensures follows { Follows (state S.Store connection.old) (state S.Store connection.new) }
    ensures trimmed { IsUsable (state S.Store connection.new)
        → TableIsSound (state S.Store connection.old)
        → OnOk result (TrimsRows votes end.now
        (table (state S.Store connection.old)) (table (state S.Store connection.new))) }
    ensures refused { IsUsable (state S.Store connection.new)
        → TableIsSound (state S.Store connection.old)
        → OnErr result (table (state S.Store connection.new)
        ≡ table (state S.Store connection.old)) }
{
    connection.execute(sql, params![end])
}

// Runs a text that selects what a key holds.
fn run_lookup<S: Alter>(
    connection: &mut Connection<S>,
    sql: &str,
    key: &[u8],
) -> Result<Vec<Row>, Error>
    requires lookup { IsLookup sql.now }
    ensures follows { Follows (state S.Store connection.old) (state S.Store connection.new) }
    ensures same { IsUsable (state S.Store connection.new)
        → TableIsSound (state S.Store connection.old)
        → table (state S.Store connection.new) ≡ table (state S.Store connection.old) }
    ensures told { IsUsable (state S.Store connection.new)
        → TableIsSound (state S.Store connection.old)
        → IfOk result (λ rows. TellsValue key.now (table (state S.Store connection.old)) rows.items) }
{
    connection.query_all(sql, params![key])
}

// The bytes in the first row.
fn first_value(rows: &[Row]) -> Result<Option<Vec<u8>>, Error>
    ensures told { IfOk result (λ found. (k table : _) → TellsValue k table rows.now
        → option_map (λ bytes. bytes.items) found ≡ value_at k table) }
{
    match rows.first() {
        Some(row) => Ok(Some(row.get(0)?)),
        None => Ok(None),
    }
}

// Runs a text that selects the keys in order.
fn run_listing<S: Alter>(connection: &mut Connection<S>, sql: &str) -> Result<Vec<Row>, Error>
    requires listing { IsListing sql.now }
    ensures follows { Follows (state S.Store connection.old) (state S.Store connection.new) }
    ensures same { IsUsable (state S.Store connection.new)
        → TableIsSound (state S.Store connection.old)
        → table (state S.Store connection.new) ≡ table (state S.Store connection.old) }
    ensures listed { HasCleanDisk (state S.Store connection.new)
        → connection.old.schema ≡ record_schema
        → IfOk result (λ rows. ListsKeys (table (state S.Store connection.old)) rows.items) }
    ensures unchanged { HasCleanDisk (state S.Store connection.new)
        → connection.old.schema ≡ record_schema
        → OnOk result (IsUnchanged (state S.Store connection.old) (state S.Store connection.new)) }
{
    connection.query_all(sql, &[])
}
