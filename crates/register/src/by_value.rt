// The register by value: the motors are copied and lent to the functions over a lent run, so that a program that holds an
// array runs the functions that ship.
ghost use Rattle.std.specs.Prelude.{◌≡◌, length};
ghost use Rattle.std.specs.Fn.{FnOnceReturnsAtMut};
ghost use Rattle.motors.specs.Filing.{filed_of, struck_of};
ghost use Rattle.form.specs.Reading.{read_of};
ghost use Rattle.form.specs.Writing.{written_of, buffer_after};

use crate::{forms, run};
use motors::{Motor, Next, PLACES};
use refusal::Refusal;

// The register after a frame that came in on a line: rows 19, 1 to 6, 20 to 24.
pub fn received(motors: [Motor; PLACES], count: usize, line: u8, bundle: &[u8]) -> Next
    ensures { result ≡ filed_of motors count line bundle.now }
{
    lent(motors, |run| run::receive(run, count, line, bundle))
}

// The register after a motor is struck out: rows 19, 20, 25.
pub fn struck_out(motors: [Motor; PLACES], count: usize, line: u8, node: u32) -> Next
    ensures { result ≡ struck_of motors count line node }
{
    lent(motors, |run| run::strike_out(run, count, line, node))
}

// The register after stored form 1 is read: rows 19, 40 to 44.
pub fn restored(motors: [Motor; PLACES], bytes: &[u8]) -> Next
    ensures { result ≡ read_of motors bytes.now }
{
    lent(motors, |run| forms::read_form(run, bytes))
}

// What work on a lent run leaves of the motors, and its answer.
fn lent<F: FnOnce(&mut [Motor]) -> Result<usize, Refusal>>(
    mut motors: [Motor; PLACES],
    work: F,
) -> Next
    requires { F.IsAlwaysCallable work }
    ensures { FnOnceReturnsAtMut F.FnOnce work motors result.answer result.motors }
{
    let answer = work(&mut motors);
    Next { motors, answer }
}

// Stored form 1 written into the buffer: rows 19, 45.
pub fn stored(motors: [Motor; PLACES], count: usize, buffer: &mut [u8]) -> Result<usize, Refusal>
    ensures { (result ≡ written_of motors count (length buffer.old)) × (buffer.new ≡ buffer_after motors count buffer.old) }
{
    forms::write_form(&motors, count, buffer)
}
