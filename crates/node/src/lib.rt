// The awning board on the bus: which frames are meant for it, the turn that a bundle leads to, and the reply.
#![tactic(auto)]

mod frames;
mod meant;
mod reply;
mod turn;

pub use frames::on_frame;
pub use turn::{Reply, Turn};
