// SDN frames: the address, reading one bundle of wire bytes, and writing a frame into a lent buffer.
#![tactic(auto)]

mod address;
mod header;
mod reading;
mod sum;
mod words;
mod writing;

pub use address::Address;
pub use header::Header;
pub use reading::{data_byte, data_count, read};
pub use words::word;
pub use writing::write;
