// What a frame from a line reports to the register.
ghost use Rattle.std.specs.Prelude.{◌≡◌};
ghost use Rattle.frame.specs.Layout.{data_of};
ghost use Rattle.motors.specs.Report.{report_of, reported, subject_of, shows_reading};

use crate::motor::{Motor, is_line, is_node, is_reading, unread};
use frame::Header;
use refusal::Refusal;

// MSG of a motor that names itself, and of one that reports its position.
// Stays: the number on the wire, as `report_table` asks it of Header.message; what is neither is row 22, so an enum with TryFrom is no plainer.
const NODE: u8 = 0x60;

const POSITION: u8 = 0x0D;

// A motor as the frame shows it, with its reading if the frame has one; or rows 1 to 6, then 20 to 23.
pub fn read_report(line: u8, bundle: &[u8]) -> Result<Motor, Refusal>
    ensures { result ≡ report_of line bundle.now }
{
    let (header, count) = frame::read(bundle)?;
    framed(line, header, count, bundle)
}

// Rows 20 to 23, in their order.
#[tactic(auto, unfolding(crate::specs::Report::reported, crate::specs::Motor::is_node, crate::specs::Motor::is_reading))]
fn framed(line: u8, header: Header, count: usize, bundle: &[u8]) -> Result<Motor, Refusal>
    ensures { result ≡ reported line header count (data_of bundle.now) }
{
    if !is_line(u32::from(line)) {
        return Err(Refusal::NoSuchLine);
    }
    let node = header.source.0;
    if !is_node(node) || header.destination.is_group() {
        return Err(Refusal::NoMotor);
    }
    if header.message == NODE {
        return Ok(unread(line, node));
    }
    if header.message != POSITION {
        return Err(Refusal::NotForRegister);
    }
    let percent = frame::data_byte(bundle, 2);
    let ip = frame::data_byte(bundle, 4);
    if count < 5 || !is_reading(percent, ip) {
        return Err(Refusal::BadReading);
    }
    Ok(Motor {
        node,
        line: u32::from(line),
        mark: 1,
        pulse: frame::word(frame::data_byte(bundle, 0), frame::data_byte(bundle, 1)),
        percent,
        ip,
    })
}

// The motor that a report is about.
pub fn subject(report: Result<Motor, Refusal>) -> Motor
    ensures { result ≡ subject_of report }
{
    report.unwrap_or(unread(0, 0))
}

// Whether it has a reading.
pub fn shows_reading(report: Result<Motor, Refusal>) -> bool
    ensures { result ≡ shows_reading report }
{
    report.is_ok_and(|motor| motor.mark == 1)
}
