//! The map of the fleet that a run of a schedule leaves at one of its nodes.
//!
//! `survey_run` does the lines over records in memory, up to the last or to the first that can't be done; `fleet_of` is what a node holds
//! then, and `map` draws it, by the crate `fleetmap`. `specs/Endings.antt` says where a run ends, `specs/Refusals.antt` why there is no map.
#![tactic(auto)]

mod fault;
mod node_map;
mod survey;

pub use fault::MapFault;
pub use node_map::{FleetMap, fleet_of, map};
pub use survey::{Survey, survey_run};
