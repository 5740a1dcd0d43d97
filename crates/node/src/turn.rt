// One bundle's turn: the node afterwards, what becomes of its group table, and the answer.
ghost use Rattle.std.specs.Prelude.{◌≡◌};
ghost use Rattle.node.specs.Turn.{no_reply, silent, refused_by};

use board::{Node, Put};
use refusal::Refusal;

// The reply's wire bytes, then zeros.
#[derive(Clone, Copy)]
pub struct Reply {
    // Stays: a length beside its buffer, since the memory is fixed and no reply is longer.
    pub count: usize,
    pub bytes: [u8; 31],
}

#[derive(Clone, Copy)]
pub struct Turn {
    pub node: Node,
    // What is put into the group table.
    pub change: Option<Put>,
    // A reply, or silence.
    pub answer: Result<Option<Reply>, Refusal>,
}

impl Reply {
    // Stays: public, and `reply_none_is` of the promises speaks of it.
    pub fn none() -> Reply
        ensures { result ≡ no_reply }
    {
        Reply {
            count: 0,
            bytes: [0u8; 31],
        }
    }
}

pub(crate) fn silent(node: Node, change: Option<Put>) -> Turn
    ensures { result ≡ silent node change }
{
    Turn {
        node,
        change,
        answer: Ok(None),
    }
}

// A refusal by a number changes nothing and is not answered.
pub(crate) fn refused(node: Node, refusal: Refusal) -> Turn
    ensures { result ≡ refused_by node refusal }
{
    Turn {
        node,
        change: None,
        answer: Err(refusal),
    }
}
