// The awning board itself: its settings, motor, favourite positions, lock, label and groups, and what happens to them.
// The bus is above it, in `node`.
#![tactic(auto)]

mod drive;
mod events;
mod favourites;
mod groups;
mod label;
mod lock;
mod plate;
mod settings;
mod whole;

pub use drive::Drive;
pub use events::{After, at_pulse, blocked, cleared, power_up, set_up};
pub use favourites::Favourites;
pub use groups::{Put, apply, in_table, no_groups};
pub use label::{blank_label, is_label};
pub use lock::Lock;
pub use plate::Plate;
pub use settings::Settings;
pub use whole::Node;
