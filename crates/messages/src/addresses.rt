// The node's own address, and its groups.
ghost use Rattle.std.specs.Prelude.{◌≡◌, ◌≤◌, Some};
ghost use Rattle.frame.specs.Layout.{data_of};
ghost use Rattle.messages.specs.Addresses.{address_row, group_data, group_row, put_in, set_group_row};

use crate::code::Code;
use crate::fields::shorter_than;
use crate::outcome::{Outcome, acts, posts, refuses};
use board::{Node, Put};
use frame::data_byte;

// 40h, answered 60h: the header says it all.
#[tactic(auto, unfolding(crate::specs::Addresses::address_row))]
pub(crate) fn post_address(node: Node) -> Outcome
    ensures { result ≡ address_row node }
{
    posts(node, 0x60, &[])
}

// 41h, answered 61h: index, group.
#[tactic(auto, unfolding(crate::specs::Addresses::group_row))]
pub(crate) fn post_group(node: Node, groups: [[u8; 3]; 16], bundle: &[u8]) -> Outcome
    ensures { result ≡ group_row node groups (data_of bundle.now) }
{
    if shorter_than(bundle, 1) {
        return refuses(node, Code::TooLittleData);
    }
    let index = data_byte(bundle, 0);
    if index > 15 {
        return refuses(node, Code::OutOfRange);
    }
    posts(node, 0x61, &group_told(groups, index))
}

// 51h SET_GROUP_ADDR: index, group of any value.
#[tactic(auto, unfolding(crate::specs::Addresses::set_group_row))]
pub(crate) fn set_group(node: Node, bundle: &[u8]) -> Outcome
    ensures { result ≡ set_group_row node (data_of bundle.now) }
{
    if shorter_than(bundle, 4) {
        return refuses(node, Code::TooLittleData);
    }
    let index = data_byte(bundle, 0);
    if index > 15 {
        return refuses(node, Code::OutOfRange);
    }
    acts(node, Some(put_in(bundle, index)))
}

// The entry's bytes stand behind its index.
fn put_in(bundle: &[u8], index: u8) -> Put
    ensures { Some result ≡ put_in index (data_of bundle.now) }
{
    Put {
        index,
        low: data_byte(bundle, 1),
        middle: data_byte(bundle, 2),
        high: data_byte(bundle, 3),
    }
}

// Index, group.
fn group_told(groups: [[u8; 3]; 16], index: u8) -> [u8; 4]
    requires { index ≤ 15 }
    ensures { result ≡ group_data groups index }
{
    let [low, middle, high] = groups[usize::from(index)];
    [index, low, middle, high]
}
