// Reading one bundle: the frame that it is, or why it is none.
ghost use Rattle.std.specs.Prelude.{◌≡◌, ◌≤◌, ◌+◌, ◌*◌, length, get_or};
ghost use Rattle.frame.specs.Layout.{header_of, data_of, data_count};
ghost use Rattle.frame.specs.Reading.{reading_of};

use crate::address::Address;
use crate::header::{BESIDE_DATA, Header, LONGEST};
use crate::sum::sum;
use refusal::Refusal;

// The frame's header, and how many bytes of DATA it has; or rows 1 to 6, in their order.
pub fn read(bundle: &[u8]) -> Result<(Header, usize), Refusal>
    ensures { result ≡ reading_of bundle.now }
{
    let count = bundle.len();
    if count < BESIDE_DATA {
        return Err(Refusal::TooShort);
    }
    if count > LONGEST {
        return Err(Refusal::TooLong);
    }
    let length = !bundle[1];
    if length / 32 % 4 != 0 {
        return Err(Refusal::Extended);
    }
    if usize::from(length % 32) != count {
        return Err(Refusal::WrongLength);
    }
    let body = count - 2;
    if sum(&bundle[..body]) != pair(bundle[body], bundle[count - 1]) {
        return Err(Refusal::WrongChecksum);
    }
    if !bundle[0] == 255 {
        return Err(Refusal::ReservedMessage);
    }
    Ok((header(bundle), count - BESIDE_DATA))
}

// How many bytes of DATA a bundle has room for between its header and its checksum.
pub fn data_count(bundle: &[u8]) -> usize
    ensures { result ≡ data_count bundle.now }
{
    bundle.len().saturating_sub(BESIDE_DATA)
}

// A byte of a bundle's DATA, counted from 0; 0 past its end.
#[tactic(auto, using(crate::proofs::Content::data_at))]
pub fn data_byte(bundle: &[u8], index: usize) -> u8
    ensures { result ≡ get_or (data_of bundle.now) index 0 }
{
    if index < data_count(bundle) {
        !bundle[9 + index]
    } else {
        0
    }
}

fn header(bundle: &[u8]) -> Header
    requires { 11 ≤ length bundle.now }
    ensures { result ≡ header_of bundle.now }
{
    let types = !bundle[2];
    Header {
        message: !bundle[0],
        ack: !bundle[1] >= 128,
        sender: types / 16,
        receiver: types % 16,
        source: Address::from_bytes(!bundle[3], !bundle[4], !bundle[5]),
        destination: Address::from_bytes(!bundle[6], !bundle[7], !bundle[8]),
    }
}

// Two bytes as one number, the high byte first.
// Stays: no twin of `word`, since the byte order differs: the checksum alone has its high byte first.
fn pair(high: u8, low: u8) -> u16
    ensures { result ≡ high * 256 + low }
{
    u16::from_be_bytes([high, low])
}
