// Writing stored form 1 from the start of a lent buffer.
ghost use Rattle.std.specs.Prelude.{◌≡◌, ◌<◌};
ghost use Rattle.form.specs.Layout.{entry_bytes};
ghost use Rattle.form.specs.FormOne.{form_one, reading_bytes};
ghost use Rattle.form.specs.Writing.{room_of, room_for, is_refused, fits, head_laid, motor_laid};

use crate::bytes::put;
use crate::places::{BODY, ENTRY, FIRST, body_place, entry_place, form_length};
use frame::Address;
use motors::{Found, Motor, PLACES};
use refusal::Refusal;

// How many bytes the form is; or row 19, by what a lookup in the run found, then 45.
pub fn room(found: Found, count: usize, room: usize) -> Result<usize, Refusal>
    ensures { result ≡ room_of found count room }
{
    match found {
        Found::Broken => Err(Refusal::BrokenRegister),
        Found::Held(_) | Found::New(_) => room_for(count, room),
    }
}

#[tactic(auto, unfolding(crate::specs::Writing::room_for))]
fn room_for(count: usize, room: usize) -> Result<usize, Refusal>
    ensures { result ≡ room_for count room }
{
    if count > PLACES {
        return Err(Refusal::BrokenRegister);
    }
    if room < form_length(count) {
        return Err(Refusal::NoRoomForForm);
    }
    Ok(form_length(count))
}

// Stays: a public function, of which the promise `is_refused_is` speaks; who writes a form goes by `?`.
pub fn is_refused(written: Result<usize, Refusal>) -> bool
    ensures { result ≡ is_refused written }
{
    written.is_err()
}

// A buffer without room for a form of so many motors is left as it is.
fn fits(count: usize, room: usize) -> bool
    ensures { result ≡ fits form_one count room }
{
    count <= PLACES && form_length(count) <= room
}

// The first byte and the count, if the buffer has room for the form.
#[tactic(auto, using(crate::proofs::Fitting::head_laws))]
pub fn lay_head(buffer: &mut [u8], count: usize)
    ensures { buffer.new ≡ head_laid count buffer.old }
{
    if !fits(count, buffer.len()) {
        return;
    }
    let [low, high] = (count as u16).to_le_bytes();
    put(buffer, 0, &[FIRST, low, high]);
}

// The entry and the body of the motor at a place of a form, if the form has the place and the buffer room for it.
#[tactic(auto, using(crate::proofs::Fitting::motor_laws))]
pub fn lay_motor(buffer: &mut [u8], count: usize, at: usize, motor: Motor)
    ensures { buffer.new ≡ motor_laid count at motor buffer.old }
{
    if at >= count || !fits(count, buffer.len()) {
        return;
    }
    let place = body_place(count, at);
    put(buffer, entry_place(at), &entry_bytes(motor, place));
    put(buffer, place, &body_bytes(motor));
}

// Line, NodeID, place of the body from the form's start.
fn entry_bytes(motor: Motor, place: usize) -> [u8; ENTRY]
    requires { place < 65536 }
    ensures { result ≡ entry_bytes motor place }
{
    let [first, second, third] = Address(motor.node).to_bytes();
    let [low, high] = (place as u16).to_le_bytes();
    [(motor.line % 256) as u8, first, second, third, low, high]
}

// 1 and the reading of a motor, or five zeros.
fn body_bytes(motor: Motor) -> [u8; BODY]
    ensures { result ≡ reading_bytes motor }
{
    if motor.mark != 1 {
        return [0; BODY];
    }
    let [low, high] = motor.pulse.to_le_bytes();
    [1, low, high, motor.percent, motor.ip]
}
