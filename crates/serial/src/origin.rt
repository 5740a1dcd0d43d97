// The origin of a motor: two capital letters of the maker, two digits of the year, two of the week, 01 to 53.
ghost use Rattle.std.specs.Prelude.{◌≡◌};
ghost use Rattle.serial.specs.Serial.{a_week, is_origin};

// Every character is in its range.
pub fn is_origin(origin: [u8; 6]) -> bool
    ensures { result ≡ is_origin origin }
{
    matches!(
        origin,
        [b'A'..=b'Z', b'A'..=b'Z', b'0'..=b'9', b'0'..=b'9', tens, ones] if is_week(tens, ones)
    )
}

// Two digits, 01 to 53.
fn is_week(tens: u8, ones: u8) -> bool
    ensures { result ≡ (a_week tens ones).holds }
{
    matches!([tens, ones], [b'0'..=b'9', b'0'..=b'9'])
        && matches!(10 * (tens - b'0') + (ones - b'0'), 1..=53)
}
