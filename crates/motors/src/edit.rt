// What a call does to the places.
ghost use Rattle.std.specs.Prelude.{◌≡◌, Ok, Err};
ghost use Rattle.motors.specs.Edit.{to_enrol, to_file, to_strike, to_renew, to_remove, to_miss, adding, leaving};

use crate::answer::PLACES;
use crate::found::Found;
use crate::motor::{Motor, is_line, unread};
use refusal::Refusal;

// Which way records move.
#[derive(Clone, Copy)]
pub enum Way {
    Up,
    Down,
}

// The records from one place to another each move by one, and a motor takes the place that comes free.
#[derive(Clone, Copy)]
pub struct Edit {
    pub way: Way,
    pub from: usize,
    pub last: usize,
    pub motor: Motor,
    pub answer: Result<usize, Refusal>,
}

// A motor that names itself: row 19, then what the frame reports. One that is held changes nothing, a new one is filed.
pub fn to_enrol(found: Found, count: usize, report: Result<Motor, Refusal>) -> Edit
    ensures { result ≡ to_enrol found count report }
{
    match found {
        Found::Held(_) => leaving(report.map(|_motor| count)),
        Found::Broken | Found::New(_) => to_file(found, count, report),
    }
}

// A motor with a reading: row 19, then what the frame reports. One that is held is renewed at its place.
pub fn to_file(found: Found, count: usize, report: Result<Motor, Refusal>) -> Edit
    ensures { result ≡ to_file found count report }
{
    match found {
        Found::Broken => refused(Refusal::BrokenRegister),
        Found::Held(place) => report.map_or_else(refused, |motor| renew(place, count, motor)),
        Found::New(place) => report.map_or_else(refused, |motor| add(place, count, motor)),
    }
}

// Rows 19, 20 and 25.
pub fn to_strike(found: Found, count: usize, line: u8) -> Edit
    ensures { result ≡ to_strike found count line }
{
    match found {
        Found::Broken => refused(Refusal::BrokenRegister),
        Found::Held(place) => to_remove(place, count),
        Found::New(_) => to_miss(line),
    }
}

// A reading takes the place of the last one.
fn renew(at: usize, count: usize, motor: Motor) -> Edit
    ensures { result ≡ to_renew at count (Ok motor) }
{
    Edit {
        way: Way::Up,
        from: at,
        last: at,
        motor,
        answer: Ok(count),
    }
}

// A new motor gets its place, or row 24.
#[tactic(auto, unfolding(crate::specs::Edit::adding))]
fn add(place: usize, count: usize, motor: Motor) -> Edit
    ensures { result ≡ adding place count motor }
{
    if count >= PLACES {
        return refused(Refusal::RegisterFull);
    }
    Edit {
        way: Way::Up,
        from: place,
        last: count,
        motor,
        answer: Ok(count + 1),
    }
}

// A place in a register of none is not one that is held.
#[tactic(auto, unfolding(crate::specs::Edit::to_remove))]
fn to_remove(place: usize, count: usize) -> Edit
    ensures { result ≡ to_remove place count }
{
    let Some(others) = count.checked_sub(1) else {
        return refused(Refusal::NotHeld);
    };
    let motor = unread(0, 0);
    Edit {
        way: Way::Down,
        from: place,
        last: others,
        motor,
        answer: Ok(others),
    }
}

// Row 20, then 25.
#[tactic(auto, unfolding(crate::specs::Edit::to_miss))]
fn to_miss(line: u8) -> Edit
    ensures { result ≡ to_miss line }
{
    if !is_line(u32::from(line)) {
        return refused(Refusal::NoSuchLine);
    }
    refused(Refusal::NotHeld)
}

fn refused(refusal: Refusal) -> Edit
    ensures { result ≡ leaving (Err refusal) }
{
    leaving(Err(refusal))
}

// From place 1 to place 0 there is none.
// Stays: a move that is none, in place of an Option of one: the definitions `leaving` and `applied` compute with these places.
fn leaving(answer: Result<usize, Refusal>) -> Edit
    ensures { result ≡ leaving answer }
{
    let motor = unread(0, 0);
    Edit {
        way: Way::Up,
        from: 1,
        last: 0,
        motor,
        answer,
    }
}
