// The RTS transmitter's messages (002) as typed messages: what each has in DATA and in which range, read from a bundle
// and written as a frame.
#![tactic(auto)]

mod data;
mod envelope;
mod field;
mod message;
mod reading;
mod table;
mod writing;

pub use data::{Contact, Counts, Frames, Mode, Position, Step, Sun};
pub use envelope::Envelope;
pub use message::{Message, message_of};
pub use reading::read;
pub use writing::write;
