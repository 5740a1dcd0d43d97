// Stored form 1, read into a lent run and written from one, where the records stand.
ghost use Rattle.std.specs.Prelude.{◌≡◌, length};
ghost use Rattle.form.specs.Reading.{read_of, place_in};
ghost use Rattle.form.specs.Writing.{written_of, buffer_after, laid_up_to};
ghost use Rattle.register.specs.Run.{fewer, first_set, others_cleared};

use crate::places::look_up;
use motors::Motor;
use refusal::Refusal;

// How many motors are held after a form is read into the run; or rows 19, 40 to 44.
pub fn read_form(run: &mut [Motor], bytes: &[u8]) -> Result<usize, Refusal>
    ensures { (result ≡ (read_of run.old bytes.now).answer) × (run.new ≡ (read_of run.old bytes.now).motors) }
{
    let count = form::check(run.len(), bytes)?;
    fill(run, bytes, count);
    clear(run, count);
    Ok(count)
}

// The first places get the motors of the form.
fn fill(run: &mut [Motor], bytes: &[u8], count: usize)
    ensures { run.new ≡ first_set (place_in count bytes.now) count run.old }
{
    let held = count.min(run.len());
    // Stays: by index; tried over iter_mut().enumerate(), and slower: forms read, 256 motors, took 0.80 of C's time for 0.70.
    for at in 0..held {
        run[at] = form::place(bytes, count, at);
    }
}

// The places behind them hold no motor.
fn clear(run: &mut [Motor], count: usize)
    ensures { run.new ≡ others_cleared count run.old }
{
    let held = count.min(run.len());
    run[held..].fill(motors::unread(0, 0));
}

// How many bytes of the buffer the form is written into; or rows 19, 45. The run is only read.
pub fn write_form(run: &[Motor], count: usize, buffer: &mut [u8]) -> Result<usize, Refusal>
    ensures { (result ≡ written_of run.now count (length buffer.old)) × (buffer.new ≡ buffer_after run.now count buffer.old) }
{
    let found = look_up(run, count, motors::unread(0, 0));
    let size = form::room(found, count, buffer.len())?;
    lay(run, count, buffer);
    Ok(size)
}

// The head, then motor after motor.
fn lay(run: &[Motor], count: usize, buffer: &mut [u8])
    ensures { buffer.new ≡ laid_up_to run.now count buffer.old (fewer count (length run.now)) }
{
    form::lay_head(buffer, count);
    let held = count.min(run.len());
    for (at, motor) in run[..held].iter().enumerate() {
        form::lay_motor(buffer, count, at, *motor);
    }
}
