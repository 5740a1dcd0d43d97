// Numbers of two bytes, and bytes put into a lent buffer.
ghost use Rattle.std.specs.Prelude.{◌≡◌, ◌+◌, ◌≤◌, length};
ghost use Rattle.frame.specs.Words.{word_of};
ghost use Rattle.form.specs.Writing.{over_from};

use frame::word;

pub(crate) fn pair(low: u8, high: u8) -> usize
    ensures { result ≡ word_of low high }
{
    usize::from(word(low, high))
}

// Bytes over those from a place on, in a buffer that has room for them.
pub(crate) fn put(buffer: &mut [u8], at: usize, bytes: &[u8])
    requires { at + length bytes.now ≤ length buffer.old }
    ensures { buffer.new ≡ over_from at bytes.now buffer.old }
{
    buffer[at..at + bytes.len()].copy_from_slice(bytes);
}
