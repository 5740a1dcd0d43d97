// The board's label: sixteen characters that the fitter gives it.
ghost use Rattle.std.specs.Prelude.{◌≡◌};
ghost use Rattle.board.specs.Label.{is_character, is_label, spaces};

// A fresh label.
pub fn blank_label() -> [u8; 16]
    ensures { result ≡ spaces }
{
    [0x20; 16]
}

// Row 33, and 01h of 55h.
// Stays: a fold, not `all`: by docs/DECISIONS.md every character is looked at, so that several can be at once.
pub fn is_label(label: [u8; 16]) -> bool
    ensures { result ≡ is_label label }
{
    label
        .iter()
        .fold(true, |right, byte| right & is_character(*byte))
}

fn is_character(byte: u8) -> bool
    ensures { result ≡ is_character byte }
{
    (b' '..=b'~').contains(&byte)
}
