// Reading stored form 1: whether it is one, and the motor of each place.
ghost use Rattle.std.specs.Prelude.{◌≡◌};
ghost use Rattle.form.specs.Reading.{check_of, place_in, is_refusal, counted_in};

use crate::bytes::pair;
use crate::form::Form;
use crate::places::FIRST;
use motors::{Motor, PLACES};
use refusal::Refusal;

// The number of motors; or rows 19 and 40 to 44, in their order.
#[tactic(auto, unfolding(crate::specs::Reading::checked))]
pub fn check(places: usize, bytes: &[u8]) -> Result<usize, Refusal>
    ensures { result ≡ check_of places bytes.now }
{
    if places != PLACES {
        return Err(Refusal::BrokenRegister);
    }
    let [FIRST, low, high, ..] = bytes else {
        return Err(Refusal::NotFormOne);
    };
    let count = pair(*low, *high);
    if count > PLACES {
        return Err(Refusal::TooManyMotors);
    }
    let Some(form) = Form::new(bytes, count) else {
        return Err(Refusal::WrongFormLength);
    };
    if !form.contents_right() {
        return Err(Refusal::BadContents);
    }
    if !form.bodies_right() {
        return Err(Refusal::BadBody);
    }
    Ok(count)
}

// What stands at a place when a form of so many motors is read. Bytes of another length hold no motor.
#[tactic(auto, using(crate::proofs::Placed::place_laws))]
pub fn place(bytes: &[u8], count: usize, at: usize) -> Motor
    ensures { result ≡ place_in count bytes.now at }
{
    match Form::new(bytes, count) {
        Some(form) if at < count => form.motor(at),
        _ => motors::unread(0, 0),
    }
}

// Stays: a public function, of which the promise `refuses_is` speaks; who reads a form goes by `?`.
pub fn refuses(answer: Result<usize, Refusal>) -> bool
    ensures { result ≡ is_refusal answer }
{
    answer.is_err()
}

// The motors in a form that is read; in one that is refused, none.
// Stays: a public function, of which the promise `counted_is` speaks.
pub fn counted(answer: Result<usize, Refusal>) -> usize
    ensures { result ≡ counted_in answer }
{
    answer.unwrap_or(0)
}
