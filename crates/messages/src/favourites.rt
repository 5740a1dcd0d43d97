// SET_MOTOR_IP, and what is told of an IP.
ghost use Rattle.std.specs.Prelude.{◌≡◌, Some};
ghost use Rattle.board.specs.Favourites.{is_number};
ghost use Rattle.frame.specs.Layout.{data_of};
ghost use Rattle.messages.specs.Ips.{order_of, order_in, share_order, finds_its_ip, ordered, set_ip_row};
ghost use Rattle.messages.specs.Ips.{percent_or, ip_data, ip_row};

use crate::code::Code;
use crate::fields::shorter_than;
use crate::outcome::{Outcome, acts, posts, refuses};
use board::{Favourites, Node};
use frame::{data_byte, word};
use travel::{IpIndex, Percent, Pulse, percent_of_pulse, pulse_of_percent};

// What SET_MOTOR_IP is to do.
#[derive(Clone, Copy)]
pub enum Order {
    Delete(IpIndex),
    // At the current pulse.
    Here(IpIndex),
    AtPercent(IpIndex, Percent),
    // So many IPs share the travel.
    Share(u8),
}

// 15h SET_MOTOR_IP: function, index, value.
#[tactic(auto, unfolding(crate::specs::Ips::set_ip_row))]
pub(crate) fn set_ip(node: Node, bundle: &[u8]) -> Outcome
    ensures { result ≡ set_ip_row node (data_of bundle.now) }
{
    if shorter_than(bundle, 4) {
        return refuses(node, Code::TooLittleData);
    }
    let Some(order) = order_in(bundle) else {
        return refuses(node, Code::OutOfRange);
    };
    if !finds_its_ip(node.favourites, order) {
        return refuses(node, Code::IpNotSet);
    }
    acts(node.with_favourites(ordered(node, order)), None)
}

// 25h, answered 35h: index, reserved, percent or FFh.
#[tactic(auto, unfolding(crate::specs::Ips::ip_row))]
pub(crate) fn post_ip(node: Node, bundle: &[u8]) -> Outcome
    ensures { result ≡ ip_row node (data_of bundle.now) }
{
    if shorter_than(bundle, 1) {
        return refuses(node, Code::TooLittleData);
    }
    let index = IpIndex(data_byte(bundle, 0));
    if !is_number(index) {
        return refuses(node, Code::OutOfRange);
    }
    posts(node, 0x35, &ip_told(node, index))
}

// None where it is out of range.
fn order_in(bundle: &[u8]) -> Option<Order>
    ensures { result ≡ order_in (data_of bundle.now) }
{
    let value = word(data_byte(bundle, 2), data_byte(bundle, 3));
    order_of(data_byte(bundle, 0), IpIndex(data_byte(bundle, 1)), value)
}

fn order_of(function: u8, index: IpIndex, value: u16) -> Option<Order>
    ensures { result ≡ order_of function index value }
{
    if function == 4 {
        return share_of(value);
    }
    if !is_number(index) {
        return None;
    }
    match function {
        0 => Some(Order::Delete(index)),
        1 => Some(Order::Here(index)),
        3 if value <= 100 => Some(Order::AtPercent(index, Percent(value as u8))),
        _ => None,
    }
}

fn share_of(value: u16) -> Option<Order>
    ensures { result ≡ share_order value }
{
    match value {
        1..=16 => Some(Order::Share(value as u8)),
        _ => None,
    }
}

// What is to be deleted has to be set.
fn finds_its_ip(favourites: Favourites, order: Order) -> bool
    ensures { result ≡ finds_its_ip favourites (Some order) }
{
    match order {
        Order::Delete(index) => favourites.ip_at(index).is_some(),
        _ => true,
    }
}

// The favourites once the order is carried out.
fn ordered(node: Node, order: Order) -> Favourites
    ensures { result ≡ ordered node (Some order) }
{
    let favourites = node.favourites;
    let travel = node.settings.travel;
    match order {
        Order::Delete(index) => favourites.with_ip(index, None),
        Order::Here(index) => favourites.with_ip(index, Some(node.drive.position)),
        Order::AtPercent(index, percent) => {
            favourites.with_ip(index, Some(pulse_of_percent(percent, travel)))
        }
        Order::Share(n) => Favourites::shared_out(n, travel),
    }
}

fn is_number(index: IpIndex) -> bool
    ensures { result ≡ is_number index }
{
    (1..=16).contains(&index.0)
}

fn percent_or(ip: Option<Pulse>, travel: Pulse) -> u8
    ensures { result ≡ percent_or ip travel }
{
    ip.map_or(0xFF, |pulse| percent_of_pulse(pulse, travel).0)
}

// Index, reserved, percent or FFh.
fn ip_told(node: Node, index: IpIndex) -> [u8; 4]
    ensures { result ≡ ip_data node index }
{
    let ip = node.favourites.ip_at(index);
    [index.0, 0xFF, 0xFF, percent_or(ip, node.settings.travel)]
}
