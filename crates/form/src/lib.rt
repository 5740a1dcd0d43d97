// Stored form 1 of the register, a motor at a time: checked and read from bytes, and laid in a lent buffer.
#![tactic(auto)]

mod bytes;
mod form;
mod places;
mod reading;
mod writing;

pub use reading::{check, counted, place, refuses};
pub use writing::{is_refused, lay_head, lay_motor, room};
