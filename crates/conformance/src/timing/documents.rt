//! Documents, read and written again.

use std::alloc::{AllocError, Global};

/// The length of the canonical document of what a document is read as, which was written so.
pub fn checked_length(alloc: Global, document: &[u8]) -> Result<u64, AllocError> {
    match mfjson::read(alloc, document) {
        Ok(feature) => Ok(mfjson::write(alloc, &feature)?.len() as u64),
        // What was written is refused for memory alone.
        Err(_) => Err(AllocError),
    }
}
