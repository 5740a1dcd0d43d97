// A serial number in a motor's record (02, 2026-05). A word has four characters, half a word two.
ghost use Rattle.std.specs.Prelude.{◌≡◌};
ghost use Rattle.serial.specs.Serial.{node_digits, origin_of, begins, is_serial_of};
ghost use Rattle.serial.specs.Words.{two_digits, characters_of, serial_in, no_serial, is_none, serial_before, serial_same};

use crate::is_origin;

// Three words of four characters each, the first character high, so that the order of the words is that of the
// characters. Zeros: none.
#[repr(C)]
#[derive(Clone, Copy, Debug, PartialEq, Eq, PartialOrd, Ord)]
pub struct Serial {
    pub first: u32,
    pub second: u32,
    pub third: u32,
}

impl Serial {
    // No serial number: twelve zeros.
    // Stays: zeros and no Option, since a record that C lends has three words (`no_serial`).
    pub fn none() -> Serial
        ensures { result ≡ no_serial }
    {
        Serial {
            first: 0,
            second: 0,
            third: 0,
        }
    }

    // The serial number of twelve characters.
    #[tactic(auto, unfolding(crate::specs::Words::serial_in))]
    pub fn of(characters: [u8; 12]) -> Serial
        ensures { result ≡ serial_in characters }
    {
        let [a, b, c, d, e, f, g, h, i, j, k, l] = characters;
        Serial {
            first: u32::from_be_bytes([a, b, c, d]),
            second: u32::from_be_bytes([e, f, g, h]),
            third: u32::from_be_bytes([i, j, k, l]),
        }
    }

    #[tactic(auto, unfolding(crate::specs::Words::characters_of))]
    pub fn characters(self) -> [u8; 12]
        ensures { result ≡ characters_of self }
    {
        let [a, b, c, d] = self.first.to_be_bytes();
        let [e, f, g, h] = self.second.to_be_bytes();
        let [i, j, k, l] = self.third.to_be_bytes();
        [a, b, c, d, e, f, g, h, i, j, k, l]
    }

    #[tactic(auto, unfolding(crate::specs::Words::is_none))]
    pub fn is_none(self) -> bool
        ensures { result ≡ is_none self }
    {
        self == Serial::none()
    }

    // A right serial of a NodeID: its six digits, then an origin.
    pub fn is_right(self, id: u32) -> bool
        ensures { result ≡ is_serial_of id (characters_of self) }
    {
        self.begins_with(id) && is_origin(self.origin())
    }

    // The first word that differs decides.
    #[tactic(auto, unfolding(crate::specs::Words::serial_before))]
    pub fn is_before(self, other: Serial) -> bool
        ensures { result ≡ serial_before self other }
    {
        self < other
    }

    #[tactic(auto, unfolding(crate::specs::Words::serial_same))]
    pub fn is_same(self, other: Serial) -> bool
        ensures { result ≡ serial_same self other }
    {
        self == other
    }

    // The NodeID's digits: a word, and half of the next.
    fn begins_with(self, id: u32) -> bool
        ensures { result ≡ begins (node_digits id) (characters_of self) }
    {
        self.first == 0x1_0000 * two_digits(id / 0x1_0000) + two_digits(id / 0x100)
            && self.second / 0x1_0000 == two_digits(id)
    }

    // The six characters behind the NodeID.
    #[tactic(auto, unfolding(crate::specs::Words::characters_of))]
    fn origin(self) -> [u8; 6]
        ensures { result ≡ origin_of (characters_of self) }
    {
        let [_, _, a, b] = self.second.to_be_bytes();
        let [c, d, e, f] = self.third.to_be_bytes();
        [a, b, c, d, e, f]
    }
}

// The last two hex digits of a number, half a word. From ten on a digit is a letter, which begins 7 further.
// Stays: tried as two calls of `hex_digit`, and slower: is_right took 1.12 of its time, over 4,096 serials at -O3.
fn two_digits(number: u32) -> u32
    ensures { result ≡ two_digits number }
{
    let high = number / 16 % 16;
    let low = number % 16;
    0x100 * (0x30 + high + 7 * ((high + 6) / 16)) + (0x30 + low + 7 * ((low + 6) / 16))
}
