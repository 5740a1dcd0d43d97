// Is the frame for this node?
ghost use Rattle.std.specs.Prelude.{◌≡◌};
ghost use Rattle.node.specs.Meant.{meant, is_reply, reaches, is_sender, suits};

use board::{Settings, in_table};
use frame::{Address, Header};

#[tactic(auto, unfolding(crate::specs::Meant::meant))]
pub(crate) fn is_meant(settings: Settings, groups: [[u8; 3]; 16], request: Header) -> bool
    ensures { result ≡ meant settings groups request }
{
    reaches(settings.id, groups, request.source, request.destination)
        && is_sender(request.source)
        && suits(settings.kind, request.receiver)
        && !is_reply(request.message)
}

// DEST is the NodeID, everyone, or 000000h with a group of this node's as SOURCE.
fn reaches(id: Address, groups: [[u8; 3]; 16], source: Address, destination: Address) -> bool
    ensures { result ≡ reaches id groups source destination }
{
    destination == id
        || destination.is_broadcast()
        || (destination.is_group() && in_table(groups, source))
}

// House rule: nobody sends as 000000h or FFFFFFh.
fn is_sender(source: Address) -> bool
    ensures { result ≡ is_sender source }
{
    !source.is_group() && !source.is_broadcast()
}

// Type 0 is no filter.
fn suits(kind: u8, receiver: u8) -> bool
    ensures { result ≡ suits kind receiver }
{
    receiver == 0 || receiver == kind
}

// A POST, ACK or NACK sent to a product is ignored.
// Stays: the numbers on the wire, since the table is document 01's and the promises list MSG as numbers (`replies`).
fn is_reply(message: u8) -> bool
    ensures { result ≡ is_reply message }
{
    matches!(
        message,
        0x0D | 0x0F
            | 0x33
            | 0x35
            | 0x36
            | 0x37
            | 0x60
            | 0x61
            | 0x65
            | 0x6C
            | 0x6F
            | 0x71
            | 0x75
            | 0x7F
    )
}
