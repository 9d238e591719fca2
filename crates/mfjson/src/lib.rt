//! Documents of moving points, and their datetimes.
//!
//! A document is a JSON text of one moving point with its name, in a profile of OGC 19-045r3 (MF-JSON). A datetime is the text of
//! an instant, in a profile of RFC 3339.
#![tactic(auto)]

mod datetime;
mod fault;
mod feature;
mod laws;
mod reader;
mod tokens;
mod writer;

pub use datetime::{datetime_read, datetime_text};
pub use fault::MfFault;
pub use feature::Feature;
pub use laws::a_document_is_of_one_feature;
pub use reader::{DocumentReader, read};
pub use writer::{write, write_after};
