//! What an open looks for in a table that is there.

ghost use Rattle.std.specs.Prelude.{◌≡◌, true, IfOk, OnOk, IsTrue};
ghost use Rattle.sqlite_value.specs.Order.{column};
ghost use Rattle.sqlite_value.specs.Value.{owned};
ghost use Rattle.sqlite_trees.specs.View.{is_int};
ghost use Rattle.sqlite.specs.Held.{state};
ghost use Rattle.sqlite.specs.State.{HasCleanDisk, IsLive};
ghost use Rattle.sqlstable.specs.States.{TableIsSound, IsUsable};
ghost use Rattle.sqlstable.specs.Files.{FindsTable};
ghost use Rattle.sqlstable.specs.States as states;
ghost use Rattle.sqlstable.specs.Lists.{AreRising, AreSoundRows, HaveOwnNumbers, RisesTo};
ghost use Rattle.sqlstable.specs.Lists as lists;
ghost use Rattle.sqlstable.specs.Table.{listed_schema};

use crate::statements::list;
use sqlite::{Alter, Connection, Error, Row};
use sqlite_value::value::ValueRef;
use std::alloc::{AllocError, Global};
use std::cmp::Ordering;

/// Whether the table may be used: no transaction is open, its rows have numbers, and no key comes twice.
///
/// SQL keeps the last two, and what a connection lends doesn't say so.
pub fn survey<S: Alter>(connection: &mut Connection<S>) -> Result<bool, Error>
    requires ours { connection.old.schema ≡ listed_schema }
    requires live { IsLive (state S.Store connection.old) }
    ensures sound { IsUsable (state S.Store connection.new) → IfOk result (λ sound. IsTrue sound
        → TableIsSound (state S.Store connection.new)) }
    ensures opened { HasCleanDisk (state S.Store connection.new)
        → OnOk result (IsTrue (state S.Store connection.new).is_open) }
    ensures found { IsUsable (state S.Store connection.new) → IfOk result (λ sound. IsTrue sound
        → FindsTable (state S.Store connection.old) (states.table (state S.Store connection.new))) }
{
    let rows = list(connection)?;
    if !connection.is_autocommit() {
        return Ok(false);
    }
    let listed = rows.as_slice();
    if !are_sound(listed) {
        return Ok(false);
    }
    let are_own = have_own_numbers(*rows.allocator(), listed)?;
    Ok(are_own)
}

// No number comes twice.
fn have_own_numbers(alloc: Global, rows: &[Row]) -> Result<bool, AllocError>
    ensures { IfOk result (λ own. IsTrue own → HaveOwnNumbers rows.now) }
{
    let mut numbers = Vec::new(alloc);
    for row in rows {
        match row.get_ref(1) {
            Ok(ValueRef::Int(number)) => numbers.push(number)?,
            _ => return Ok(false),
        }
    }
    numbers.sort_unstable();
    Ok(rise(numbers.as_slice()))
}

// Each number is below the next.
fn rise(numbers: &[i64]) -> bool
    ensures { IsTrue result → AreRising numbers.entry.now }
{
    let mut rest = numbers;
    while let [first, more @ ..] = rest {
        if let [next, ..] = more
            && first >= next
        {
            return false;
        }
        rest = more;
    }
    true
}

// The rows have numbers, and keys that rise.
fn are_sound(rows: &[Row]) -> bool
    ensures { IsTrue result → AreSoundRows rows.entry.now }
{
    let mut rest = rows;
    while let [row, more @ ..] = rest {
        if !has_number(row) || !rises_to(row, more) {
            return false;
        }
        rest = more;
    }
    true
}

// The row has a number.
fn has_number(row: &Row) -> bool
    ensures { IsTrue result → is_int (column row.now 1) ≡ true }
{
    matches!(row.get_ref(1), Ok(ValueRef::Int(_)))
}

// The first of these rows, if there is one, is above the row.
fn rises_to(row: &Row, rows: &[Row]) -> bool
    ensures { IsTrue result → RisesTo row.now rows.now }
{
    match rows {
        [] => true,
        [next, ..] => is_above(row, next),
    }
}

// The second row's key is above the first's.
fn is_above(row: &Row, next: &Row) -> bool
    ensures { IsTrue result → lists.rises (column row.now 0) (column next.now 0) ≡ true }
{
    let (Ok(first), Ok(second)) = (row.get_ref(0), next.get_ref(0)) else {
        return false;
    };
    rises(first, second)
}

// The second value is above the first, where that is bytes.
fn rises(first: ValueRef<'_>, second: ValueRef<'_>) -> bool
    ensures { IsTrue result → lists.rises (owned first.entry) (owned second.entry) ≡ true }
{
    match (first, second) {
        (ValueRef::Blob(first), ValueRef::Blob(second)) => {
            matches!(first.cmp(second), Ordering::Less)
        }
        (ValueRef::Blob(_), _) => false,
        _ => true,
    }
}
