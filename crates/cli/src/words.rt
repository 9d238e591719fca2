//! The words that the process was started with.

ghost use Rattle.std.specs.Prelude.{◌≡◌, ◌⊎◌, drop, IfErr, IfOk};
ghost use Rattle.std.specs.Vec.Iter.{into_iter_items};

use crate::failures::args_failure;
use commands::Failure;
use std::alloc::{AllocError, Global};
use std::env::{self, Args};

/// The words after the program's name.
///
/// Words that are no text are `Usage`, as they are none of the program's forms.
pub(crate) fn own_words(rt: &HostRuntime) -> Result<Vec<String>, Failure>
    ensures { IfErr result (λ failure. (failure ≡ Failure.Usage)
        ⊎ (failure ≡ Failure.Memory)) }
{
    match env::args(rt) {
        Ok(all) => Ok(after_name(rt.alloc(), all)?),
        Err(error) => Err(args_failure(&error)),
    }
}

/// All words but the first, which is the program's name.
fn after_name(alloc: Global, all: Args) -> Result<Vec<String>, AllocError>
    ensures { IfOk result (λ words. words.items ≡ drop 1 (into_iter_items all)) }
{
    let mut all = all;
    let _name = all.next();
    let mut words = Vec::new(alloc);
    for word in all {
        words.push(word)?;
    }
    Ok(words)
}
