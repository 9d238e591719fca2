//! Maps of a fleet: where each feature of a database is at an instant, drawn on a chart, with its way, and with the rectangles of
//! which a run was asked.
//!
//! A chart is a square of the ground. A feature is shown at its defined value, rounded to the picture's unit as `specs/Charts.antt`
//! says: `show_feature`, `show_fleet`. `draw_fleet` makes a picture of that.
#![tactic(auto)]

mod areas;
mod asked;
mod chart;
mod corners;
mod drawn;
mod label;
mod legend;
mod marks;
mod page;
mod scale;
mod shown;
mod spot;
mod way;

pub use asked::Asked;
pub use chart::{Chart, SIDE};
pub use page::draw_fleet;
pub use shown::{Shown, show_feature, show_fleet};
pub use spot::Spot;
