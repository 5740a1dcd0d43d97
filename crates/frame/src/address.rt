// An address: one kind of thing, with its group and its broadcast mark.
ghost use Rattle.std.specs.Prelude.{◌≡◌, eqb};
ghost use Rattle.frame.specs.Address.{address_of, bytes_of, group, broadcast, a_node_id};

#[derive(Clone, Copy, PartialEq, Eq)]
pub struct Address(pub u32);

impl Address {
    // As DEST: the frame is for a group, which SOURCE then names.
    pub const GROUP: Address = Address(0x00_0000);

    // As DEST: the frame is for everyone.
    pub const BROADCAST: Address = Address(0xFF_FFFF);

    // The address that three bytes spell, the low byte first.
    pub fn from_bytes(low: u8, middle: u8, high: u8) -> Address
        ensures { result ≡ address_of low middle high }
    {
        Address(u32::from_le_bytes([low, middle, high, 0]))
    }

    // The three bytes of an address, the low byte first; a number over FFFFFFh is no address, and its low three bytes are given.
    pub fn to_bytes(self) -> [u8; 3]
        ensures { result ≡ bytes_of self }
    {
        let [low, middle, high, _] = self.0.to_le_bytes();
        [low, middle, high]
    }

    // The address of one motor or board: 000001h to FFFEFFh.
    pub fn is_node_id(self) -> bool
        ensures { result ≡ (a_node_id self).holds }
    {
        (0x00_0001..=0xFF_FEFF).contains(&self.0)
    }

    // Stays: this and the one below ask for the two marks that document 01 names, by their constants.
    pub fn is_group(self) -> bool
        ensures { result ≡ eqb self.0 group.0 }
    {
        self == Address::GROUP
    }

    pub fn is_broadcast(self) -> bool
        ensures { result ≡ eqb self.0 broadcast.0 }
    {
        self == Address::BROADCAST
    }
}
