// Rows of text, gathered before they are written out, and how values stand in them.
ghost use Rattle.std.specs.Prelude.{◌≡◌, ◌<◌, [], length, take};

use crate::gathered::Gathered;
use frame::Address;
use std::fmt::Write;
use std::marker::Model;
use std::{fmt, str};

// Rows that wait to be written out, as the text that they are.
#[derive(Drop)]
pub struct Rows {
    text: Gathered<65536>,
    // The row that is told last, gathered apart from those before it: whatever its values write, those stay.
    row: Gathered<32768>,
}

impl Model for Rows {
    ghost use Rattle.std.specs.Prelude.{ℕ, List};

    ghost Value = { List ℕ };

    ghost view = { λ rows. rows.text };
}

impl Rows {
    pub fn new() -> Rows
        ensures { result ≡ [] }
    {
        Rows {
            text: Gathered::new(),
            row: Gathered::new(),
        }
    }

    pub fn as_bytes(&self) -> &[u8]
        ensures { result.now ≡ self.now }
    {
        self.text.as_slice()
    }

    pub fn clear(&mut self)
        ensures { self.new ≡ [] }
    {
        self.text.clear();
    }

    // One row more, behind those that wait. Rows are written out long before they fill the room, so none lacks it.
    pub fn put(&mut self, row: impl fmt::Display + Drop)
        ensures { take (length self.old) self.new ≡ self.old }
    {
        self.row.clear();
        let _ = writeln!(self.row, "{row}");
        self.text.hold(self.row.as_slice());
    }
}

// The first bytes of a run, all of it where it has fewer.
pub fn first(bytes: &[u8], count: usize) -> &[u8]
    ensures { result.now ≡ take count bytes.now }
{
    bytes.get(..count).unwrap_or(bytes)
}

// So many bytes are spelled at a time, and written as one text: docs/DESIGN-PASS.md.
const SPELLED: usize = 32;

// Bytes in HEX.
#[derive(Clone, Copy)]
pub struct Hex<'a>(pub &'a [u8]);

impl fmt::Display for Hex<'_> {
    fn fmt<W: fmt::Write>(&self, f: &mut fmt::Formatter<W>) -> fmt::Result {
        for part in self.0.chunks(SPELLED) {
            let mut digits = [[0; 2]; SPELLED];
            for (pair, byte) in digits.iter_mut().zip(part) {
                *pair = [digit(*byte / 16), digit(*byte % 16)];
            }
            let spelled = &digits[..part.len().min(SPELLED)];
            let text = str::from_utf8(spelled.as_flattened());
            f.write_str(text.map_err(|_| fmt::Error)?)?;
        }
        Ok(())
    }
}

// A digit of a number below 16.
fn digit(number: u8) -> u8
    requires { number < 16 }
{
    if number < 10 {
        b'0' + number
    } else {
        b'A' + (number - 10)
    }
}

// An address as on the label: six digits.
#[derive(Clone, Copy)]
pub struct Id(pub Address);

impl fmt::Display for Id {
    fn fmt<W: fmt::Write>(&self, f: &mut fmt::Formatter<W>) -> fmt::Result {
        let number = self.0.0;
        write!(f, "{number:06X}")
    }
}

// A number, or `-` for none.
#[derive(Clone, Copy)]
pub struct OrNone(pub Option<u16>);

impl fmt::Display for OrNone {
    fn fmt<W: fmt::Write>(&self, f: &mut fmt::Formatter<W>) -> fmt::Result {
        match self.0 {
            Some(number) => write!(f, "{number}"),
            None => write!(f, "-"),
        }
    }
}
