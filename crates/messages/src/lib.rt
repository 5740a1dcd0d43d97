// The message table of the node: what each message comes to, the node after it and what is to be said. Which frames are
// meant for the node, row 33 and the reply's bytes are in `node`.
#![tactic(auto)]

mod addresses;
mod code;
mod favourites;
mod fields;
mod identity;
mod lock;
mod motor;
mod outcome;
mod table;

pub use code::Code;
pub use outcome::{Outcome, Say};
pub use table::outcome_of;
