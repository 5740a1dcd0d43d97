// What is done with a lent run: a number that C has to come to as well.
use crate::worth::worth;
use motors::Motor;

// A refusal's number stands behind this one, above every count.
const REFUSED: u16 = 1000;

// One frame from a line: the count held now, or 1000 and the refusal's number.
#[unsafe(no_mangle)]
pub extern "C" fn speed_file(run: &mut [Motor], count: usize, line: u8, bundle: &[u8]) -> u64 {
    worth(register::receive(run, count, line, bundle), REFUSED)
}

// One motor struck out: the count held now, or 1000 and the refusal's number.
#[unsafe(no_mangle)]
pub extern "C" fn speed_strike(run: &mut [Motor], count: usize, line: u8, node: u32) -> u64 {
    worth(register::strike_out(run, count, line, node), REFUSED)
}

// A stored form read: the count held now, or 1000 and the refusal's number.
#[unsafe(no_mangle)]
pub extern "C" fn speed_read_form(run: &mut [Motor], bytes: &[u8]) -> u64 {
    worth(register::read_form(run, bytes), REFUSED)
}

// A stored form written: its length, or 1000 and the refusal's number.
#[unsafe(no_mangle)]
pub extern "C" fn speed_write_form(run: &[Motor], count: usize, buffer: &mut [u8]) -> u64 {
    worth(register::write_form(run, count, buffer), REFUSED)
}
