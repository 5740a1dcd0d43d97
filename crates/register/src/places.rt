// The places of a lent run: what is found there, and records that move by one. The run is changed where it stands.
ghost use Rattle.std.specs.Prelude.{◌≡◌, drop};
ghost use Rattle.runs.specs.Places.{moved_up, moved_down};
ghost use Rattle.motors.specs.Motor.{zeros};
ghost use Rattle.motors.specs.Passing.{passed_of};
ghost use Rattle.motors.specs.Found.{found_of, bits_of};
ghost use Rattle.motors.specs.Edit.{applied};

use motors::{Edit, Found, Motor, Passing, Way};

// Where a motor stands or would stand, or row 19: one pass over the places, in two loops.
// Stays: no binary search, since row 19 is asked of every record, and the same pass finds the place.
pub(crate) fn look_up(run: &[Motor], count: usize, motor: Motor) -> Found
    ensures { result ≡ found_of run.now count motor }
{
    let wanted = motors::key(motor);
    motors::found_by(
        run.len(),
        count,
        wanted,
        pass(run, count, wanted),
        bits_behind(run, count),
    )
}

// The records held, from the last place to the first.
fn pass(run: &[Motor], count: usize, wanted: u64) -> Passing
    ensures { result ≡ passed_of run.now count wanted }
{
    let mut passing = Passing::begun(count);
    // Stays: by index; tried as iter().rev().fold, and the proof did not close: the search does not follow iter().rev().
    for at in (0..count.min(run.len())).rev() {
        passing = passing.past(wanted, run[at], at);
    }
    passing
}

// The bits of the places behind them, the last one first: no early exit, so that several places are looked at at once.
fn bits_behind(run: &[Motor], count: usize) -> u64
    ensures { result ≡ bits_of (drop count run.now) }
{
    let mut bits = 0;
    // Stays: by index; tried as iter().rev().fold, and the proof did not close: the search does not follow iter().rev().
    for at in (count..run.len()).rev() {
        bits = motors::gather(bits, run[at]);
    }
    bits
}

// What a call does to the places.
pub(crate) fn apply(run: &mut [Motor], edit: Edit)
    ensures { run.new ≡ applied run.old edit }
{
    match edit.way {
        Way::Up => move_up(run, edit.from, edit.last, edit.motor),
        Way::Down => move_down(run, edit.from, edit.last, edit.motor),
    }
}

// The records from one place to another each move up by one, and a motor takes the first of the places.
fn move_up(run: &mut [Motor], from: usize, last: usize, motor: Motor)
    ensures { run.new ≡ moved_up zeros run.old from last motor }
{
    if from <= last && last < run.len() {
        run.copy_within(from..last, from + 1);
        run[from] = motor;
    }
}

// The records from one place to another each move down by one, and a motor takes the last of the places.
fn move_down(run: &mut [Motor], from: usize, last: usize, motor: Motor)
    ensures { run.new ≡ moved_down zeros run.old from last motor }
{
    if from <= last && last < run.len() {
        run.copy_within(from + 1..last + 1, from);
        run[last] = motor;
    }
}
