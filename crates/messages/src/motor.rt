// STOP, MOVETO, and what is told of the motor.
ghost use Rattle.std.specs.Prelude.{◌≡◌, Some};
ghost use Rattle.board.specs.Drive.{halted};
ghost use Rattle.board.specs.Node.{with_drive};
ghost use Rattle.frame.specs.Layout.{data_of};
ghost use Rattle.messages.specs.Motor.{aim_of, aim_in, target_of, stop_row, move_row};
ghost use Rattle.messages.specs.Motor.{position_data, position_row, status_data, status_row};

use crate::code::Code;
use crate::fields::shorter_than;
use crate::outcome::{Outcome, acts, posts, refuses};
use board::Node;
use frame::{data_byte, word};
use travel::{IpIndex, Percent, Pulse, percent_of_pulse, pulse_of_percent};

// Where MOVETO is to go.
#[derive(Clone, Copy)]
pub enum Aim {
    Down,
    Up,
    ToIp(IpIndex),
    ToPercent(Percent),
}

// 02h STOP.
#[tactic(auto, unfolding(crate::specs::Motor::stop_row))]
pub(crate) fn stop(node: Node, bundle: &[u8]) -> Outcome
    ensures { result ≡ stop_row node (data_of bundle.now) }
{
    if shorter_than(bundle, 1) {
        return refuses(node, Code::TooLittleData);
    }
    if node.lock.locked {
        return refuses(node, Code::Locked);
    }
    acts(halted(node), None)
}

// 03h MOVETO: function, position, reserved.
#[tactic(auto, unfolding(crate::specs::Motor::move_row))]
pub(crate) fn move_to(node: Node, bundle: &[u8]) -> Outcome
    ensures { result ≡ move_row node (data_of bundle.now) }
{
    if shorter_than(bundle, 4) {
        return refuses(node, Code::TooLittleData);
    }
    let Some(aim) = aim_in(bundle) else {
        return refuses(node, Code::OutOfRange);
    };
    if node.lock.locked {
        return refuses(node, Code::Locked);
    }
    if node.drive.blocked {
        return refuses(node, Code::Blocked);
    }
    let Some(target) = target_of(node, aim) else {
        return refuses(node, Code::IpNotSet);
    };
    acts(node.with_drive(node.drive.moved_to(target)), None)
}

// 0Ch, answered 0Dh: pulse, percent, reserved, IP.
#[tactic(auto, unfolding(crate::specs::Motor::position_row))]
pub(crate) fn post_position(node: Node) -> Outcome
    ensures { result ≡ position_row node }
{
    posts(node, 0x0D, &position_told(node))
}

// 0Eh, answered 0Fh: status, direction, source, cause.
#[tactic(auto, unfolding(crate::specs::Motor::status_row))]
pub(crate) fn post_status(node: Node) -> Outcome
    ensures { result ≡ status_row node }
{
    posts(node, 0x0F, &status_told(node))
}

// A running motor becomes stopped.
pub(crate) fn halted(node: Node) -> Node
    ensures { result ≡ with_drive node (halted node.drive) }
{
    node.with_drive(node.drive.halted())
}

// None where it is out of range.
fn aim_in(bundle: &[u8]) -> Option<Aim>
    ensures { result ≡ aim_in (data_of bundle.now) }
{
    let position = word(data_byte(bundle, 1), data_byte(bundle, 2));
    aim_of(data_byte(bundle, 0), position)
}

fn aim_of(function: u8, position: u16) -> Option<Aim>
    ensures { result ≡ aim_of function position }
{
    match function {
        0 => Some(Aim::Down),
        1 => Some(Aim::Up),
        2 if (1..=16).contains(&position) => Some(Aim::ToIp(IpIndex(position as u8))),
        4 if position <= 100 => Some(Aim::ToPercent(Percent(position as u8))),
        _ => None,
    }
}

// The pulse to go to; none where the IP is not set.
fn target_of(node: Node, aim: Aim) -> Option<Pulse>
    ensures { result ≡ target_of node (Some aim) }
{
    let travel = node.settings.travel;
    match aim {
        Aim::Down => Some(travel),
        Aim::Up => Some(Pulse(0)),
        Aim::ToIp(index) => node.favourites.ip_at(index),
        Aim::ToPercent(percent) => Some(pulse_of_percent(percent, travel)),
    }
}

// Pulse, percent, reserved, IP.
fn position_told(node: Node) -> [u8; 5]
    ensures { result ≡ position_data node }
{
    let position = node.drive.position;
    let [low, high] = position.0.to_le_bytes();
    let percent = percent_of_pulse(position, node.settings.travel);
    [
        low,
        high,
        percent.0,
        0xFF,
        node.favourites.reported_ip(position),
    ]
}

// Status, direction, source, cause.
fn status_told(node: Node) -> [u8; 4]
    ensures { result ≡ status_data node }
{
    [
        node.status(),
        node.drive.direction,
        node.drive.source,
        node.drive.cause,
    ]
}
