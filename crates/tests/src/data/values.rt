//! What no clause says: that a hash and a text of an id are its own. Values that were worked out by hand are the example `worked_values`.

use std::alloc::Global;
use std::collections::HashSet;
use std::convert::AsStr;
use std::fmt::Display;
use std::test::Fail;
use tpoint::Id;

/// The text that any value with a text lends.
fn lent<T: AsStr>(value: &T) -> &str {
    value.as_str()
}

fn id(text: &str) -> Result<Id, Fail> {
    Ok(Id::new(text.as_bytes()).ok_or("an id")?)
}

/// Whether a text is the text of its id.
fn is_text_of_id(alloc: Global, text: &str) -> Result<bool, Fail> {
    let id = id(text)?;
    Ok(lent(&id) == text && is_written(alloc, id, text)?)
}

/// Whether a set has one key and not the other, once the one is put into it twice.
fn are_keys(alloc: Global, one: Id, other: Id) -> Result<bool, Fail> {
    let mut seen = HashSet::new(alloc);
    Ok(is_new_once(&mut seen, one)? && seen.contains(&one) && !seen.contains(&other))
}

fn is_new_once(seen: &mut HashSet<Id>, key: Id) -> Result<bool, Fail> {
    Ok(seen.insert(key)? && !seen.insert(key)?)
}

#[test]
fn ids_as_texts_and_keys(rt: HostRuntime) -> Result<(), Fail> {
    for text in ["bus-7", "bus-10"] {
        assert!(rt; is_text_of_id(rt.alloc(), text)?, "{text}");
    }
    assert!(rt; are_keys(rt.alloc(), id("bus-7")?, id("bus-10")?)?);
    Ok(())
}

/// Whether this is the text of a value.
fn is_written<T: Display + Drop>(alloc: Global, value: T, want: &str) -> Result<bool, Fail> {
    let text = format!(in alloc; "{value}")?;
    Ok(text.as_str() == want)
}
