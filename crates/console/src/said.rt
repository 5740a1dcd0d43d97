// What a command is answered, where its row has no numbers of its own.
ghost use Rattle.std.specs.Prelude.{◌≡◌, ℕ, take};
ghost use Rattle.console.specs.Told.{wire_of};

use crate::rows::{Hex, first};
use refusal::Refusal;
use std::fmt;

#[derive(Clone, Copy)]
pub enum Said<'a> {
    BadLine,
    Ready,
    Done,
    NoNode,
    Silent,
    // No frame has ended.
    Nothing,
    Refused(Refusal),
    Reply(&'a [u8]),
    Frame(&'a [u8]),
    Wire(&'a [u8]),
    Form(&'a [u8]),
}

impl<'a> Said<'a> {
    // What a frame writer answered that was lent this buffer.
    #[tactic(auto, unfolding(crate::specs::Told::wire_of))]
    pub fn wire(written: Result<usize, Refusal>, buffer: &'a [u8; 31]) -> Said<'a>
        ensures wire { (next : ℕ) → written ≡ Ok next → wire_of result ≡ Some (take next buffer.now) }
        ensures refused { (q : Refusal) → written ≡ Err q → result ≡ Said.Refused q }
    {
        match written {
            Ok(next) => Said::Wire(first(buffer, next)),
            Err(refusal) => Said::Refused(refusal),
        }
    }
}

impl fmt::Display for Said<'_> {
    fn fmt<W: fmt::Write>(&self, f: &mut fmt::Formatter<W>) -> fmt::Result {
        match *self {
            Said::BadLine => write!(f, "bad line"),
            Said::Ready => write!(f, "ready"),
            Said::Done => write!(f, "done"),
            Said::NoNode => write!(f, "no node"),
            Said::Silent => write!(f, "silent"),
            Said::Nothing => write!(f, "none"),
            Said::Refused(refusal) => write!(f, "refused {}", refusal.number()),
            Said::Reply(bytes) => write!(f, "reply {}", Hex(bytes)),
            Said::Frame(bytes) => write!(f, "frame {}", Hex(bytes)),
            Said::Wire(bytes) => write!(f, "wire {}", Hex(bytes)),
            Said::Form(bytes) => write!(f, "form {}", Hex(bytes)),
        }
    }
}
