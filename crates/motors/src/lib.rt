// The register of motors, a record at a time: what a frame reports, what one pass over the places finds, and what a call does to them.
#![tactic(auto)]

mod answer;
mod edit;
mod found;
mod motor;
mod passing;
mod report;

pub use answer::{Next, PLACES};
pub use edit::{Edit, Way, to_enrol, to_file, to_strike};
pub use found::{Found, found_by, gather};
pub use motor::{Motor, follows, is_reading, key, unread};
pub use passing::Passing;
pub use report::{read_report, shows_reading, subject};
