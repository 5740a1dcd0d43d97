// What a frame says beside its message.
ghost use Rattle.std.specs.Prelude.{◌≡◌};
ghost use Rattle.rts.specs.Envelope.{envelope_of, headed};

use frame::{Address, Header};

// The header without MSG: the transmitter's type is 5, and who sends what to whom is the caller's to say.
// Stays: a public type of its own, of which `envelope_of` and `headed` speak.
#[derive(Clone, Copy)]
pub struct Envelope {
    // The ACK bit: an answer is asked for.
    pub ack: bool,
    // The sender's node type.
    pub sender: u8,
    // The receiver's node type.
    pub receiver: u8,
    pub source: Address,
    pub destination: Address,
}

impl From<Header> for Envelope {
    ghost from_gives = { λ header result. result ≡ envelope_of header };

    fn from(header: Header) -> Envelope {
        Envelope {
            ack: header.ack,
            sender: header.sender,
            receiver: header.receiver,
            source: header.source,
            destination: header.destination,
        }
    }
}

impl Envelope {
    // The header of a message of this number.
    pub(crate) fn header(self, number: u8) -> Header
        ensures { result ≡ headed self number }
    {
        Header {
            message: number,
            ack: self.ack,
            sender: self.sender,
            receiver: self.receiver,
            source: self.source,
            destination: self.destination,
        }
    }
}
