// The transmitter's messages read, and each written again.
use crate::worth::total_worth;
use refusal::Refusal;

// Each message is written over the buffer's start: the sum of the lengths written and of the refusals' numbers.
#[unsafe(no_mangle)]
pub extern "C" fn speed_messages(slots: &[u8], buffer: &mut [u8]) -> u64 {
    total_worth(slots, |bundle| again(bundle, buffer))
}

fn again(bundle: &[u8], buffer: &mut [u8]) -> Result<usize, Refusal> {
    let (envelope, message) = rts::read(bundle)?;
    rts::write(buffer, 0, envelope, message)
}
