// What is found of a motor in a run of places.
ghost use Rattle.std.specs.Prelude.{◌≡◌};
ghost use Rattle.motors.specs.Found.{found_by, in_number, gathered};

use crate::answer::PLACES;
use crate::motor::{Motor, key, rest};
use crate::passing::Passing;

// Stays: neither an Option nor a Result, since a motor that is not held has a place too, and row 19 is a third case.
#[derive(Clone, Copy)]
pub enum Found {
    // Row 19: the run is no register.
    Broken,
    // The motor stands at this place.
    Held(usize),
    // It is not held, and this would be its place.
    New(usize),
}

// By the pass over the records held while the motor of a key was looked for, and the bits of the places behind them.
#[tactic(auto, unfolding(crate::specs::Found::found_by))]
pub fn found_by(places: usize, count: usize, wanted: u64, passing: Passing, bits: u64) -> Found
    ensures { result ≡ found_by places count wanted passing bits }
{
    if !in_number(places, count) || passing.next == 0 || bits != 0 {
        Found::Broken
    } else if passing.place == count || passing.there != wanted {
        Found::New(passing.place)
    } else {
        Found::Held(passing.place)
    }
}

// Row 19: 256 places, and at most 256 motors.
fn in_number(places: usize, count: usize) -> bool
    ensures { result ≡ in_number places count }
{
    places == PLACES && count <= PLACES
}

// The bits of one more place, beside those behind it: 0 where all are blank.
pub fn gather(bits: u64, motor: Motor) -> u64
    ensures { result ≡ gathered bits motor }
{
    bits | key(motor) | rest(motor)
}
