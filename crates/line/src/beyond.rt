// The bytes beyond those counted: row 9 wants zeros.
ghost use Rattle.std.specs.Prelude.{◌≡◌, drop};
ghost use Rattle.line.specs.Reader.{all_zeros};

// Zeros from a place on: eight at a time, of which the last may overlap those before them.
pub(crate) fn are_zeros(bytes: &[u8], from: usize) -> bool
    ensures { result ≡ all_zeros (drop from bytes.now) }
{
    let rest = &bytes[from.min(bytes.len())..];
    match rest.last_chunk() {
        Some(last) => {
            let (eights, _) = rest.as_chunks();
            eights.iter().all(|eight| is_zero(*eight)) && is_zero(*last)
        }
        None => rest.iter().all(|byte| *byte == 0),
    }
}

// Eight bytes as one number, which is zero where they are zeros: the machine loads it at once.
fn is_zero(eight: [u8; 8]) -> bool
    ensures { result ≡ all_zeros eight }
{
    u64::from_le_bytes(eight) == 0
}
