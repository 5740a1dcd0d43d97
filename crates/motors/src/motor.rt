// A motor's record: its line, its NodeID and its last reading. A place that holds none is all zeros.
ghost use Rattle.std.specs.Prelude.{◌≡◌};
ghost use Rattle.motors.specs.Motor.{unread, key_number, rest_number, is_line, is_node, is_reading, reading_part, right_beside_line, follows_of};

use frame::Address;

// Laid out as C does, from wide to narrow and without padding, so that every byte that a host lends is one of these
// numbers. The first two load as one number, and so do the others.
#[repr(C)]
#[derive(Clone, Copy)]
pub struct Motor {
    // NodeID.
    pub node: u32,
    pub line: u32,
    // 1 where a reading exists, else 0: then pulse, percent and IP are zeros.
    // Stays: a mark beside its reading; the C interface lends this record of plain numbers, and row 19 judges any byte of it.
    pub mark: u32,
    pub pulse: u16,
    pub percent: u8,
    pub ip: u8,
}

// A motor of which no reading exists.
pub fn unread(line: u8, node: u32) -> Motor
    ensures { result ≡ unread line node }
{
    Motor {
        node,
        line: u32::from(line),
        mark: 0,
        pulse: 0,
        percent: 0,
        ip: 0,
    }
}

// The order of motors as the order of one number: line, then NodeID.
// Stays: no derived order; `past` and `found_by` compare by the definition `key_number`, and both fields load as one number (SPEED.md).
pub fn key(motor: Motor) -> u64
    ensures { result ≡ key_number motor }
{
    u64::from(motor.node) + (u64::from(motor.line) << 32)
}

// The other fields as one number.
// Stays: the definition `rest_number`, whose bits `gathered` joins; the four fields load as one number (SPEED.md).
pub(crate) fn rest(motor: Motor) -> u64
    ensures { result ≡ rest_number motor }
{
    u64::from(motor.mark)
        + (u64::from(motor.pulse) << 32)
        + (u64::from(motor.percent) << 48)
        + (u64::from(motor.ip) << 56)
}

// Row 20.
pub(crate) fn is_line(line: u32) -> bool
    ensures { result ≡ is_line line }
{
    line <= 3
}

// Row 21.
#[tactic(auto, unfolding(crate::specs::Motor::is_node))]
pub(crate) fn is_node(node: u32) -> bool
    ensures { result ≡ is_node node }
{
    Address(node).is_node_id()
}

// Row 23: percent 0 to 100, IP 1 to 16 or FFh, which is next to 0 where a byte begins again.
#[tactic(auto, unfolding(crate::specs::Motor::is_reading))]
pub fn is_reading(percent: u8, ip: u8) -> bool
    ensures { result ≡ is_reading percent ip }
{
    // Stays: `0xFF | 1..=16` in place of the number behind it takes up to a quarter more time (forms read, filings).
    let next = ip.wrapping_add(1);
    percent <= 100 && next <= 17 && next != 1
}

// The mark with what it says of the other fields.
#[tactic(auto, unfolding(crate::specs::Motor::reading_part), using(crate::proofs::Numbers::rest_zero))]
fn reading_right(motor: Motor) -> bool
    ensures { result ≡ reading_part motor }
{
    if motor.mark == 1 {
        is_reading(motor.percent, motor.ip)
    } else {
        rest(motor) == 0
    }
}

// A held record's fields but for its line: rows 21, 23, and without a reading zeros.
#[tactic(auto, unfolding(crate::specs::Motor::right_beside_line))]
pub(crate) fn right_beside_line(motor: Motor) -> bool
    ensures { result ≡ right_beside_line motor }
{
    is_node(motor.node) && reading_right(motor)
}

// A record that may stand behind another: row 20 too.
#[tactic(auto, unfolding(crate::specs::Motor::follows_of, crate::specs::Motor::right_of), using(crate::proofs::Numbers::key_before))]
pub fn follows(previous: Motor, motor: Motor) -> bool
    ensures { result ≡ follows_of previous motor }
{
    is_line(motor.line) && right_beside_line(motor) && key(previous) < key(motor)
}
