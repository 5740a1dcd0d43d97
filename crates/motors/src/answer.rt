// What a call on the register answers, and the places that it leaves.
use crate::motor::Motor;
use refusal::Refusal;

// The places of a register.
pub const PLACES: usize = 256;

#[derive(Clone, Copy)]
pub struct Next {
    pub motors: [Motor; PLACES],
    // So many motors are held now; or the refusal.
    pub answer: Result<usize, Refusal>,
}
