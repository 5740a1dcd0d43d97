// The words of a line, and the values that they stand for.
ghost use Rattle.std.specs.Prelude.{◌<◌, IfOk};

use frame::Address;
use std::str::{FromStr, Utf8Error};

// A line that is no command, or a word that is not what its command asks.
#[derive(Clone, Copy, Debug, PartialEq, Eq)]
pub struct BadLine;

impl From<Utf8Error> for BadLine {
    fn from(_error: Utf8Error) -> BadLine {
        BadLine
    }
}

// The words that are left of a line: they are separated by exactly one space, with none in front and none behind.
#[derive(Clone, Copy)]
pub(crate) struct Words<'a> {
    rest: Option<&'a str>,
}

impl<'a> Words<'a> {
    pub(crate) fn of(line: &'a str) -> Words<'a> {
        Words { rest: Some(line) }
    }

    pub(crate) fn is_over(&self) -> bool {
        self.rest.is_none()
    }

    // A line ends behind its command's words.
    pub(crate) fn end(&self) -> Result<(), BadLine> {
        if self.is_over() { Ok(()) } else { Err(BadLine) }
    }

    pub(crate) fn word(&mut self) -> Result<&'a str, BadLine> {
        let rest = self.rest.ok_or(BadLine)?;
        let Some((word, behind)) = rest.split_once(' ') else {
            self.rest = None;
            return Ok(rest);
        };
        self.rest = Some(behind);
        Ok(word)
    }

    // DEC: 1 to 10 digits, of a number that the type has.
    pub(crate) fn decimal<T: FromStr>(&mut self) -> Result<T, BadLine>
    where
        T: Drop,
        T::Err: Drop,
    {
        let word = self.word()?;
        if word.len() > 10 || !word.bytes().all(|digit| digit.is_ascii_digit()) {
            return Err(BadLine);
        }
        word.parse().map_err(|_| BadLine)
    }

    // DEC of 0 or 1.
    pub(crate) fn flag(&mut self) -> Result<bool, BadLine> {
        match self.decimal::<u8>()? {
            0 => Ok(false),
            1 => Ok(true),
            _ => Err(BadLine),
        }
    }

    // HEX of exactly so many bytes.
    pub(crate) fn bytes<const N: usize>(&mut self) -> Result<[u8; N], BadLine> {
        let mut bytes = [0; N];
        decode(self.word()?, &mut bytes)?;
        Ok(bytes)
    }

    // BYTE
    pub(crate) fn byte(&mut self) -> Result<u8, BadLine> {
        let [byte] = self.bytes::<1>()?;
        Ok(byte)
    }

    // ID: the number as printed on the label, high byte first.
    pub(crate) fn id(&mut self) -> Result<Address, BadLine> {
        let [high, middle, low] = self.bytes::<3>()?;
        Ok(Address::from_bytes(low, middle, high))
    }

    // HEX of any number of bytes, which go into the room that is lent; `-` is none.
    pub(crate) fn hex<'b>(&mut self, room: &'b mut [u8; 4096]) -> Result<&'b [u8], BadLine> {
        let word = self.word()?;
        if word == "-" {
            return Ok(&[]);
        }
        if word.is_empty() {
            return Err(BadLine);
        }
        let bytes = room.get_mut(..word.len() / 2).ok_or(BadLine)?;
        decode(word, bytes)?;
        Ok(bytes)
    }
}

// Two digits a byte, the high one first.
fn decode(word: &str, bytes: &mut [u8]) -> Result<(), BadLine> {
    if word.len() % 2 != 0 || word.len() / 2 != bytes.len() {
        return Err(BadLine);
    }
    for (byte, pair) in bytes.iter_mut().zip(word.as_bytes().chunks_exact(2)) {
        *byte = pair_value(pair)?;
    }
    Ok(())
}

fn pair_value(pair: &[u8]) -> Result<u8, BadLine> {
    match pair {
        [high, low] => Ok(16 * digit(*high)? + digit(*low)?),
        _ => Err(BadLine),
    }
}

// A digit of either case.
fn digit(byte: u8) -> Result<u8, BadLine>
    ensures { IfOk result (λ value. value < 16) }
{
    match byte {
        b'0'..=b'9' => Ok(byte - b'0'),
        b'A'..=b'F' => Ok(byte - b'A' + 10),
        b'a'..=b'f' => Ok(byte - b'a' + 10),
        _ => Err(BadLine),
    }
}
