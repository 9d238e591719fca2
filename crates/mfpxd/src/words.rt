//! The words that the process was started with.

ghost use Rattle.std.specs.Prelude.{◌≡◌, drop, IfOk};
ghost use Rattle.std.specs.Vec.Iter.{into_iter_items};

use crate::refusal::Refusal;
use crate::stop::Stop;
use std::alloc::{AllocError, Global};
use std::env::{self, Args};
use std::io::ErrorKind;

/// The words after the program's name.
pub fn own_words(rt: &HostRuntime) -> Result<Vec<String>, Stop> {
    match env::args(rt) {
        Ok(all) => Ok(after_name(rt.alloc(), all)?),
        Err(error) => match error.kind() {
            ErrorKind::OutOfMemory => Err(Stop::from(AllocError)),
            _ => Err(Stop::Refused(Refusal::Words)),
        },
    }
}

/// All words but the first, which is the program's name.
fn after_name(alloc: Global, all: Args) -> Result<Vec<String>, AllocError>
    ensures { IfOk result (λ words. words.items ≡ drop 1 (into_iter_items all)) }
{
    let mut all = all;
    let _name = all.next();
    let mut words = Vec::new(alloc);
    for word in all {
        words.push(word)?;
    }
    Ok(words)
}
