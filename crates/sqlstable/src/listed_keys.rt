//! The keys that the rows of a list tell.

ghost use Rattle.std.specs.Prelude.{◌≡◌, ◌<◌, true, length, IfOk, IsErrOf};
ghost use Rattle.sqlite_value.specs.Order.{column};
ghost use Rattle.sqlite_value.specs.declared.value.Value.TheVariants.{Blob};
ghost use Rattle.sqlite_rules.specs.Lists.{Has};
ghost use Rattle.sqlstable.specs.Keys.{AreKeysOf, TellsNone, is_valid, spelled};

use crate::key_bytes::key_of;
use sqlite::{Error, ErrorCode, Row};
use stable::{Key, StableFault};
use std::alloc::Global;

/// The keys, one for each row. `Damaged` where a row has the spelling of none.
pub fn keys_in(alloc: Global, rows: &[Row]) -> Result<Vec<Key>, StableFault>
    ensures told { IfOk result (λ keys. AreKeysOf rows.now keys.items) }
    ensures damaged { IsErrOf result StableFault.Damaged
        → (row : _) × Has rows.now row × (0 < length row → TellsNone row) }
    ensures not_device { ¬ IsErrOf result StableFault.Device }
{
    let mut keys = Vec::new(alloc);
    for row in rows {
        let key = key_in(row)?;
        keys.push(key)?;
    }
    Ok(keys)
}

// The key in a row.
fn key_in(row: &Row) -> Result<Key, StableFault>
    ensures told { IfOk result (λ key. (is_valid key ≡ true) × (column row.now 0 ≡ Blob (spelled key))) }
    ensures damaged { IsErrOf result StableFault.Damaged → 0 < length row.now → TellsNone row.now }
    ensures not_device { ¬ IsErrOf result StableFault.Device }
{
    let bytes: Vec<u8> = match row.get(0) {
        Ok(bytes) => bytes,
        Err(Error::SqliteFailure(ErrorCode::OutOfMemory)) => return Err(StableFault::Memory),
        Err(_) => return Err(StableFault::Damaged),
    };
    match key_of(bytes.as_slice()) {
        Some(key) => Ok(key),
        None => Err(StableFault::Damaged),
    }
}
