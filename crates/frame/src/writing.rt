// Writing a frame into a lent buffer, at any place.
ghost use Rattle.std.specs.Prelude.{◌≡◌, [], ◌∷◌, map, ◌≤◌, ◌+◌, ◌/◌, ◌%◌, length};
ghost use Rattle.frame.specs.Layout.{inverted};
ghost use Rattle.frame.specs.Writing.{writing_of, buffer_after, over, raw_header, frame_of};

use crate::header::{BESIDE_DATA, Header, MOST_DATA};
use crate::sum::sum;
use refusal::Refusal;

const LARGEST_ADDRESS: u32 = 0xFF_FFFF;

// The place after the frame; or rows 10 to 14, in their order.
pub fn write(
    buffer: &mut [u8],
    place: usize,
    header: Header,
    content: &[u8],
) -> Result<usize, Refusal>
    ensures value { result ≡ writing_of (length buffer.old) place header content.now }
    ensures buffer_after { buffer.new ≡ buffer_after buffer.old place header content.now }
{
    if header.source.0 > LARGEST_ADDRESS {
        return Err(Refusal::AddressTooLarge);
    }
    if header.destination.0 > LARGEST_ADDRESS {
        return Err(Refusal::AddressTooLarge);
    }
    if header.sender > 15 {
        return Err(Refusal::TypeTooLarge);
    }
    if header.receiver > 15 {
        return Err(Refusal::TypeTooLarge);
    }
    let count = content.len();
    if count > MOST_DATA {
        return Err(Refusal::TooMuchData);
    }
    if header.message == 255 {
        return Err(Refusal::ReservedToWrite);
    }
    if place > buffer.len() {
        return Err(Refusal::NoRoom);
    }
    if buffer.len() - place < BESIDE_DATA + count {
        return Err(Refusal::NoRoom);
    }
    lay(&mut buffer[place..], header, content);
    Ok(place + (BESIDE_DATA + count))
}

// The frame over the first bytes of a part that has room for it.
fn lay(part: &mut [u8], header: Header, content: &[u8])
    requires to_20_bytes { length content.now ≤ 20 }
    requires has_room { 11 + length content.now ≤ length part.old }
    requires types { (header.sender ≤ 15) × (header.receiver ≤ 15) }
    ensures { part.new ≡ over (frame_of header content.now) part.old }
{
    let count = content.len();
    let raw = raw_header(header, count);
    lay_inverted(part, &raw);
    lay_inverted(&mut part[9..], content);
    let body = 9 + count;
    let total = sum(&part[..body]);
    lay_checksum(&mut part[body..], total);
}

// The nine raw bytes before DATA. In the second stand ACK, no EXT, and the whole frame's length.
fn raw_header(header: Header, count: usize) -> [u8; 9]
    requires { (count ≤ 20) × (header.sender ≤ 15) × (header.receiver ≤ 15) }
    ensures { result ≡ raw_header header count }
{
    let length = 11 + count as u8;
    let second = if header.ack { 128 + length } else { length };
    let types = header.sender * 16 + header.receiver;
    let source = header.source.to_bytes();
    let destination = header.destination.to_bytes();
    [
        header.message,
        second,
        types,
        source[0],
        source[1],
        source[2],
        destination[0],
        destination[1],
        destination[2],
    ]
}

// Raw bytes go out inverted.
fn lay_inverted(part: &mut [u8], raw: &[u8])
    requires { length raw.now ≤ length part.old }
    ensures { part.new ≡ over (map inverted raw.now) part.old }
{
    // Stays: a write by its place; after a zip of `iter_mut` a proof knows no byte of the part, and this one did not close.
    for (place, byte) in raw.iter().enumerate() {
        part[place] = !*byte;
    }
}

fn lay_checksum(part: &mut [u8], total: u16)
    requires { 2 ≤ length part.old }
    ensures { part.new ≡ over (total / 256 ∷ total % 256 ∷ []) part.old }
{
    part[..2].copy_from_slice(&total.to_be_bytes());
}
