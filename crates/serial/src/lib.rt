// A motor's serial number: its NodeID in six capital hex digits, then its origin (02, 2026-01).
#![tactic(auto)]

mod origin;
mod words;

ghost use Rattle.std.specs.Prelude.{◌≡◌, ◌%◌};
ghost use Rattle.serial.specs.Serial.{hex_digit, serial_of};

pub use origin::is_origin;
pub use words::Serial;

// The twelve characters; a number over FFFFFFh is no NodeID, and its low six digits are given.
pub fn serial_of(id: u32, origin: [u8; 6]) -> [u8; 12]
    ensures { result ≡ serial_of id origin }
{
    let [a, b, c, d, e, f] = origin;
    [
        hex_digit(id / 0x10_0000),
        hex_digit(id / 0x1_0000),
        hex_digit(id / 0x1000),
        hex_digit(id / 0x100),
        hex_digit(id / 0x10),
        hex_digit(id),
        a,
        b,
        c,
        d,
        e,
        f,
    ]
}

// The last hex digit of a number, a capital.
fn hex_digit(number: u32) -> u8
    ensures { result ≡ hex_digit (number % 16) }
{
    match (number % 16) as u8 {
        digit @ 0..=9 => b'0' + digit,
        digit => b'A' + (digit - 10),
    }
}
