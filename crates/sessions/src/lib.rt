//! What clients ask for, and what a list of commands means: each request is executed once, and each client's requests in the
//! order of their numbers.
//!
//! A request is known by its client and number alone. `specs/Meaning.antt` defines which places of a list count, the reply to
//! each request and the answer to each query, without a machine. A `Machine` executes commands one after another and keeps none
//! of them; `specs/Standing.antt` defines which lists it abstracts.
//!
//! `Machine::snapshot` writes what a machine holds, and `Machine::restore` makes the machine of such a text again.
//! `specs/Snapshots.antt` defines the text of a list of commands, without a machine.
#![tactic(auto)]

mod command;
mod fault;
mod laws;
mod machine;
mod number;
mod request;
mod session;
mod session_reply;
mod snapshot;
mod snapshot_reader;
mod submission;

pub use command::Command;
pub use fault::SnapFault;
pub use laws::{
    each_machine_has_a_text, each_place_has_a_database, limits, one_answer_to_each_query,
    one_execution, one_machine_of_each_list, one_machine_of_each_text, one_reply_at_each_place,
    one_snapshot_of_each_list,
};
pub use machine::Machine;
pub use number::Number;
pub use request::{MOST_PUT_POINTS, Request, TooLong};
pub use session_reply::SessionReply;
pub use snapshot::LONGEST_SNAPSHOT;
pub use submission::Submission;
