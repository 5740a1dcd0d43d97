// The board on the bench: its commands, and its rows.
#![tactic(auto)]

mod commands;
mod state;

pub use commands::BoardRoom;
pub use state::Awning;
