// What a frame says beside its DATA.
use crate::address::Address;

// The bytes of a frame beside its DATA, the most DATA, and the longest frame.
pub(crate) const BESIDE_DATA: usize = 11;

pub(crate) const MOST_DATA: usize = 20;

pub(crate) const LONGEST: usize = 31;

#[derive(Clone, Copy, PartialEq, Eq)]
pub struct Header {
    // MSG.
    pub message: u8,
    // The ACK bit: an answer is asked for.
    pub ack: bool,
    // The sender's node type.
    pub sender: u8,
    // The receiver's node type.
    pub receiver: u8,
    pub source: Address,
    pub destination: Address,
}
