// What stands on the board's plate.
ghost use Rattle.std.specs.Prelude.{◌≡◌};
ghost use Rattle.board.specs.Plate.{plate_in_range};

use serial::is_origin;

#[derive(Clone, Copy)]
pub struct Plate {
    // The version: reference, letter and number.
    pub reference: u32,
    pub letter: u8,
    pub number: u8,
    // The characters of maker, year and week, the serial number's part behind the NodeID.
    pub origin: [u8; 6],
}

impl Plate {
    // The plate of a board that is set up without one.
    pub const PLAIN: Plate = Plate {
        reference: 0,
        letter: b'A',
        number: 0,
        origin: *b"AA0001",
    };

    // Row 32's ranges; the number may be any byte.
    pub fn in_range(self) -> bool
        ensures { result ≡ plate_in_range self }
    {
        self.reference <= 0xFF_FFFF && matches!(self.letter, b'A'..=b'Z') && is_origin(self.origin)
    }
}
