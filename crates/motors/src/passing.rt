// One pass over the records held, from the last place to the first: row 19, and where a motor stands or would stand.
ghost use Rattle.std.specs.Prelude.{◌≡◌};
ghost use Rattle.motors.specs.Passing.{begun, past, next_by};

use crate::motor::{Motor, key, right_beside_line};

#[derive(Clone, Copy)]
pub struct Passing {
    // The key of the record passed last, which the one before it has to be below; 0 once a record is not right.
    // Stays: `next_by` and `found_by` of specs/ compute with 0, below which no key is, in place of an Option.
    pub next: u64,
    // The first place passed whose record is not before the motor looked for.
    // Stays: place and there are the count and 0 where none was passed, by the definitions `begun`, `past` and `found_by`.
    pub place: usize,
    // The key of the record there.
    pub there: u64,
}

// No line is so high: the key of a motor on one of the lines is smaller.
// Stays: a number that is no key, as the definition `begun` has it, in place of an Option.
const BEHIND_ALL: u64 = 0x400000000;

impl Passing {
    // Before the first record: behind so many places.
    pub fn begun(count: usize) -> Passing
        ensures { result ≡ begun count }
    {
        Passing {
            next: BEHIND_ALL,
            place: count,
            there: 0,
        }
    }

    // The record at a place is passed, while the motor of a key is looked for.
    #[tactic(auto, unfolding(crate::specs::Passing::past))]
    pub fn past(self, wanted: u64, standing: Motor, at: usize) -> Passing
        ensures { result ≡ past self wanted standing at }
    {
        let number = key(standing);
        let next = self.next_by(number, standing);
        if number < wanted {
            Passing { next, ..self }
        } else {
            Passing {
                next,
                place: at,
                there: number,
            }
        }
    }

    #[tactic(auto, unfolding(crate::specs::Passing::next_by))]
    fn next_by(self, number: u64, standing: Motor) -> u64
        ensures { result ≡ next_by self number standing }
    {
        if number < self.next && right_beside_line(standing) {
            number
        } else {
            0
        }
    }
}
