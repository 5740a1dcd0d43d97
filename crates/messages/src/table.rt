// The message table.
ghost use Rattle.std.specs.Prelude.{◌≡◌};
ghost use Rattle.frame.specs.Layout.{data_of};
ghost use Rattle.messages.specs.Table.{outcome_of};

use crate::code::Code;
use crate::outcome::{Outcome, refuses};
use crate::{addresses, favourites, identity, lock, motor};
use board::Node;
use frame::Address;

// One row for each message; 10h for any other. SOURCE is needed to lock, and the bundle for its DATA.
// Stays: node and bundle beside each other, since a struct of both would be made here once and taken apart in each row.
// Stays: the number on the wire, since document 01's table and the promises (`status_is_told`) speak of MSG as one.
#[tactic(auto, unfolding(crate::specs::Table::outcome_of))]
pub fn outcome_of(
    node: Node,
    groups: [[u8; 3]; 16],
    source: Address,
    message: u8,
    bundle: &[u8],
) -> Outcome
    ensures { result ≡ outcome_of node groups source message (data_of bundle.now) }
{
    match message {
        0x02 => motor::stop(node, bundle),
        0x03 => motor::move_to(node, bundle),
        0x0C => motor::post_position(node),
        0x0E => motor::post_status(node),
        0x15 => favourites::set_ip(node, bundle),
        0x25 => favourites::post_ip(node, bundle),
        0x16 => lock::set_lock(node, source, bundle),
        0x26 => lock::post_lock(node),
        0x40 => addresses::post_address(node),
        0x41 => addresses::post_group(node, groups, bundle),
        0x51 => addresses::set_group(node, bundle),
        0x45 => identity::post_label(node),
        0x55 => identity::set_label(node, bundle),
        0x74 => identity::post_version(node),
        0x4C => identity::post_serial(node),
        _ => refuses(node, Code::UnknownMessage),
    }
}
