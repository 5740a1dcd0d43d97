// Bundles read, and each frame written again.
use crate::worth::total_worth;
use frame::Header;
use refusal::Refusal;

// Each frame is written over the buffer's start: the sum of the lengths written and of the refusals' numbers.
#[unsafe(no_mangle)]
pub extern "C" fn speed_bundles(slots: &[u8], buffer: &mut [u8]) -> u64 {
    total_worth(slots, |bundle| again(bundle, buffer))
}

fn again(bundle: &[u8], buffer: &mut [u8]) -> Result<usize, Refusal> {
    let (header, _) = frame::read(bundle)?;
    write_again(bundle, header, buffer)
}

fn write_again(bundle: &[u8], header: Header, buffer: &mut [u8]) -> Result<usize, Refusal> {
    // A bundle's DATA, as much as there is room for.
    let mut content = [0u8; 20];
    let count = frame::data_count(bundle).min(content.len());
    let content = &mut content[..count];
    for (place, byte) in content.iter_mut().enumerate() {
        *byte = frame::data_byte(bundle, place);
    }
    frame::write(buffer, 0, header, content)
}
