//! Reports of faults for people: where each faulty line of a schedule is wrong, or a document of a moving point, and what was wanted
//! there.
//!
//! A report begins with the fault that `schedule` or `mfjson` finds first, and none is made where they find none: `specs/Reports.antt` says
//! so. The rest of its words is for people, and stands in no contract.
#![tactic(auto)]

mod document_place;
mod documents;
mod json_place;
mod line_place;
mod picture;
mod place;
mod row;
mod schedules;
mod word;

pub use documents::report_document;
pub use schedules::report_schedule;
