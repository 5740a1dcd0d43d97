// Why a message is refused, in the order of checking.
ghost use Rattle.std.specs.Prelude.{◌≡◌};
ghost use Rattle.messages.specs.Code.{code_of};

#[derive(Clone, Copy)]
pub enum Code {
    UnknownMessage = 0x10,
    TooLittleData = 0x11,
    // A field out of range.
    OutOfRange = 0x01,
    Locked = 0x20,
    // The lock's holder has a higher priority.
    PriorityTooLow = 0x25,
    Blocked = 0xFF,
    IpNotSet = 0x23,
}

impl Code {
    pub fn number(self) -> u8
        ensures { result ≡ code_of self }
    {
        self as u8
    }
}
