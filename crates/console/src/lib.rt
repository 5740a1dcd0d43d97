// The text side of a console: lines out of what is read, the command that a line is, and rows of text.
#![tactic(auto)]

mod command;
mod gathered;
mod lines;
mod rows;
mod said;
mod words;

pub use command::{BoardCommand, Command, Event, RegisterCommand, RtsCommand, WireCommand};
pub use lines::{Input, Line};
pub use rows::{Hex, Id, OrNone, Rows, first};
pub use said::Said;
pub use words::BadLine;
