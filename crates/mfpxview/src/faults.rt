//! Faults of files, in words.

use crate::failure::Failure;
use crate::files::{read_file, write_file};
use crate::progress::UNTOLD;
use fault_report::{report_document, report_schedule};

/// Shows what is wrong with the file, and answers 1 where anything is.
pub(crate) fn show_faults(rt: &HostRuntime, file: &str) -> Result<u8, Failure> {
    let bytes = read_file(rt, file, UNTOLD)?;
    tell_faults(rt, file, bytes.as_slice())
}

/// The same of its bytes.
pub(crate) fn tell_faults(rt: &HostRuntime, file: &str, bytes: &[u8]) -> Result<u8, Failure> {
    let told = if is_document(file, bytes) {
        report_document(rt.alloc(), file, bytes)?
    } else {
        report_schedule(rt.alloc(), file, bytes)?
    };
    match told {
        Some(text) => {
            write_file(rt, "-", text.as_str().as_bytes(), UNTOLD)?;
            Ok(1)
        }
        None => Ok(0),
    }
}

/// Whether the file is read as a document: its name ends in `.json` or `.mfjson`, or its text begins with `{` after white space.
fn is_document(file: &str, bytes: &[u8]) -> bool {
    file.ends_with(".json")
        || file.ends_with(".mfjson")
        || bytes.trim_ascii_start().first() == Some(&b'{')
}
