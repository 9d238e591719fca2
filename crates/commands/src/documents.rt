//! Checks of documents.

ghost use Rattle.std.specs.Prelude.{◌≡◌, ◌≢◌, [], ◌∷◌, ◌++◌, ℕ, List, IfErr, IfOk};
ghost use Rattle.mfjson.specs.Document.{IsCanonical};
ghost use Rattle.commands.specs.Works.{CheckStops, IsChecked};

use crate::Failure;
use crate::failures::document_failure;
use mfjson::Feature;
use std::alloc::{AllocError, Global};

/// The canonical form of the document that the bytes are, as a line.
pub fn check(alloc: Global, bytes: &[u8]) -> Result<Vec<u8>, Failure>
    ensures checked { IfOk result (λ text. IsChecked bytes.now text.items) }
    ensures ends { IfErr result (λ failure. failure ≢ Failure.Memory
        → CheckStops bytes.now failure) }
{
    match mfjson::read(alloc, bytes) {
        Ok(feature) => Ok(write_line(alloc, &feature)?),
        Err(fault) => Err(document_failure(fault)),
    }
}

/// The canonical document of the feature, and a line feed.
fn write_line(alloc: Global, feature: &Feature) -> Result<Vec<u8>, AllocError>
    ensures { IfOk result (λ line. (text : List ℕ) × IsCanonical text feature.now
        × (line.items ≡ text ++ 10 ∷ [])) }
{
    let mut line = mfjson::write(alloc, feature)?;
    line.push(b'\n')?;
    Ok(line)
}
