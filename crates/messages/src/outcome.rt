// What a message comes to.
ghost use Rattle.std.specs.Prelude.{◌≡◌, ◌≤◌, length};
ghost use Rattle.messages.specs.declared.code.Code.{Code};
ghost use Rattle.messages.specs.Outcome.{outcome, in_twenty, acts, posts, refuses};

use crate::code::Code;
use board::{Node, Put};

// What is to be said to whoever asks for an answer.
#[derive(Clone, Copy)]
pub enum Say {
    // A SET or CTRL was carried out.
    Done,
    // A GET: MSG of its POST.
    // Stays: a number, as `Posted` of the promises has it.
    Post(u8),
    Refuse(Code),
}

#[derive(Clone, Copy)]
pub struct Outcome {
    // The node afterwards.
    pub node: Node,
    // What is put into the group table.
    pub change: Option<Put>,
    pub say: Say,
    // DATA of what is said, then zeros: that of a POST, or the code of a refusal.
    // Stays: a length beside its buffer, since the memory is fixed and what is said outlives what it is made of.
    pub count: usize,
    pub content: [u8; 20],
}

// A SET or CTRL carried out on the node, or on the group table.
pub(crate) fn acts(after: Node, change: Option<Put>) -> Outcome
    ensures { result ≡ acts after change }
{
    said(after, change, Say::Done, &[])
}

// A GET changes nothing.
pub(crate) fn posts(node: Node, message: u8, content: &[u8]) -> Outcome
    requires { length content.now ≤ 20 }
    ensures { result ≡ posts node message content.now }
{
    said(node, None, Say::Post(message), content)
}

// A refusal changes nothing.
pub(crate) fn refuses(node: Node, code: Code) -> Outcome
    ensures { result ≡ refuses node code }
{
    said(node, None, Say::Refuse(code), &[code.number()])
}

// DATA, and zeros behind it.
fn said(node: Node, change: Option<Put>, say: Say, bytes: &[u8]) -> Outcome
    requires { length bytes.now ≤ 20 }
    ensures { result ≡ outcome node change say (length bytes.now) (in_twenty bytes.now) }
{
    let count = bytes.len();
    let mut content = [0u8; 20];
    content[..count].copy_from_slice(bytes);
    Outcome {
        node,
        change,
        say,
        count,
        content,
    }
}
