// A stored form that is read: its entries and bodies, and the motor of each place.
ghost use Rattle.std.specs.Prelude.{◌≡◌, ◌≢◌, ◌≤◌, ◌<◌, MatchOption, length};
ghost use Rattle.motors.specs.Motor.{unread};
ghost use Rattle.motors.specs.Order.{key_of};
ghost use Rattle.motors.specs.Register.{places};
ghost use Rattle.form.specs.Layout.{
  form_length,
  line_in,
  node_in,
  pointer_in,
  body_in,
  motor_in,
  previous_in,
  entry_right,
  body_right,
  contents_right,
  bodies_right,
};
ghost use Rattle.form.specs.FormOne.{form_one, IsLong};

use crate::bytes::pair;
use crate::places::{BODY, body_place, entry_place, form_length};
use frame::Address;
use motors::{Motor, PLACES};

// Bytes as many as a form of so many motors has.
#[derive(Clone, Copy)]
pub(crate) struct Form<'a> {
    bytes: &'a [u8],
    count: usize,
    ghost long: { IsLong bytes.now count },
}

// Stays: `at < count` is asked of each call, as a slice asks it of an index; a type of places would hold the form again.
impl<'a> Form<'a> {
    pub(crate) fn new(bytes: &'a [u8], count: usize) -> Option<Form<'a>>
        ensures { MatchOption result (count ≤ places → length bytes.now ≢ form_length form_one count)
            (λ form. (form.bytes.now ≡ bytes.now) × (form.count ≡ count)) }
    {
        if count > PLACES || bytes.len() != form_length(count) {
            return None;
        }
        Some(Form { bytes, count })
    }

    // The motor of an entry, before its reading is known.
    fn entry(&self, at: usize) -> Motor
        requires { at < self.now.count }
        ensures { result ≡ unread (line_in self.now.bytes.now at) (node_in self.now.bytes.now at) }
    {
        let from = entry_place(at);
        let address = Address::from_bytes(
            self.bytes[from + 1],
            self.bytes[from + 2],
            self.bytes[from + 3],
        );
        motors::unread(self.bytes[from], address.0)
    }

    // The motor before, its reading not known; the first stands behind zeros.
    #[tactic(auto, using(crate::proofs::Parts::key_before))]
    fn before(&self, at: usize) -> Motor
        requires { at < self.now.count }
        ensures { key_of result ≡ key_of (previous_in form_one self.now.count self.now.bytes.now at) }
    {
        if at == 0 {
            motors::unread(0, 0)
        } else {
            self.entry(at - 1)
        }
    }

    // Strictly ascending, as rows 20 and 21 have it, and its body at the next place.
    #[tactic(auto, using(crate::proofs::Parts::pointer_read, crate::proofs::Parts::entry_wrong, crate::proofs::Parts::entry_placed))]
    fn entry_right(&self, at: usize) -> bool
        requires { at < self.now.count }
        ensures { result ≡ entry_right form_one self.now.count self.now.bytes.now at }
    {
        let from = entry_place(at);
        motors::follows(self.before(at), self.entry(at))
            && pair(self.bytes[from + 4], self.bytes[from + 5]) == body_place(self.count, at)
    }

    pub(crate) fn contents_right(&self) -> bool
        ensures { result ≡ contents_right form_one self.now.count self.now.bytes.now }
    {
        (0..self.count).all(|at| self.entry_right(at))
    }

    // The bytes of a body.
    fn body(&self, at: usize) -> &'a [u8]
        requires { at < self.now.count }
        ensures bytes { result.now ≡ body_in form_one self.now.count self.now.bytes.now at }
        ensures size { length result.now ≡ form_one.body_size }
    {
        let from = body_place(self.count, at);
        &self.bytes[from..from + BODY]
    }

    // 1 and a reading, or five zeros.
    #[tactic(auto, unfolding(crate::specs::FormOne::reading_right))]
    fn body_right(&self, at: usize) -> bool
        requires { at < self.now.count }
        ensures { result ≡ body_right form_one self.now.count self.now.bytes.now at }
    {
        match self.body(at) {
            [1, _, _, percent, ip] => motors::is_reading(*percent, *ip),
            body => matches!(body, [0, 0, 0, 0, 0]),
        }
    }

    pub(crate) fn bodies_right(&self) -> bool
        ensures { result ≡ bodies_right form_one self.now.count self.now.bytes.now }
    {
        (0..self.count).all(|at| self.body_right(at))
    }

    // The motor of an entry and a body.
    #[tactic(auto, unfolding(crate::specs::FormOne::motor_of_reading))]
    pub(crate) fn motor(&self, at: usize) -> Motor
        requires { at < self.now.count }
        ensures { result ≡ motor_in form_one self.now.count self.now.bytes.now at }
    {
        let unread = self.entry(at);
        match self.body(at) {
            [1, low, high, percent, ip] => Motor {
                mark: 1,
                pulse: frame::word(*low, *high),
                percent: *percent,
                ip: *ip,
                ..unread
            },
            _ => unread,
        }
    }
}
