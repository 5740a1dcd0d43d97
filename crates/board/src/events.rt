// Set-up, and the events that reach the board from its own motor and supply.
ghost use Rattle.std.specs.Prelude.{◌≡◌};
ghost use Rattle.board.specs.Events.{set_up, after_pulse, after_blocked, after_cleared, after_power_up, done, refused_by, blocks};

use crate::settings::Settings;
use crate::whole::Node;
use refusal::Refusal;
use travel::Pulse;

// The node after an event; a refused event has changed nothing.
// Stays: a struct of both, since set_up hands out a node beside its refusal (`refused_settings_give_a_fresh_node_too`).
#[derive(Clone, Copy)]
pub struct After {
    pub node: Node,
    pub verdict: Result<(), Refusal>,
}

// A fresh node. One with refused settings is refused by every later call.
#[tactic(auto, unfolding(crate::specs::Events::set_up))]
pub fn set_up(settings: Settings) -> After
    ensures { result ≡ set_up settings }
{
    let node = Node::fresh(settings);
    if !settings.in_range() {
        return refused(node, Refusal::BadSettings);
    }
    done(node)
}

// The motor has come to a pulse.
// Stays: row 33 said in each event; tried as one `event(node, |node| ..)`, and two of the four proofs did not close.
#[tactic(auto, unfolding(crate::specs::Events::after_pulse))]
pub fn at_pulse(node: Node, pulse: Pulse) -> After
    ensures { result ≡ after_pulse node pulse }
{
    if !node.is_sound() {
        return refused(node, Refusal::BrokenNode);
    }
    if node.settings.travel < pulse {
        return refused(node, Refusal::BeyondTravel);
    }
    done(node.with_drive(node.drive.at_pulse(pulse)))
}

// The motor has been blocked, by 20h, 21h or 22h.
#[tactic(auto, unfolding(crate::specs::Events::after_blocked))]
pub fn blocked(node: Node, cause: u8) -> After
    ensures { result ≡ after_blocked node cause }
{
    if !node.is_sound() {
        return refused(node, Refusal::BrokenNode);
    }
    if !blocks(cause) {
        return refused(node, Refusal::NotBlocking);
    }
    done(node.with_drive(node.drive.blocked_by(cause)))
}

#[tactic(auto, unfolding(crate::specs::Events::after_cleared))]
pub fn cleared(node: Node) -> After
    ensures { result ≡ after_cleared node }
{
    if !node.is_sound() {
        return refused(node, Refusal::BrokenNode);
    }
    done(node.with_drive(node.drive.unblocked()))
}

#[tactic(auto, unfolding(crate::specs::Events::after_power_up))]
pub fn power_up(node: Node) -> After
    ensures { result ≡ after_power_up node }
{
    if !node.is_sound() {
        return refused(node, Refusal::BrokenNode);
    }
    let driven = node.with_drive(node.drive.powered_up());
    done(driven.with_lock(node.lock.over_power_up()))
}

fn done(node: Node) -> After
    ensures { result ≡ done node }
{
    After {
        node,
        verdict: Ok(()),
    }
}

fn refused(node: Node, refusal: Refusal) -> After
    ensures { result ≡ refused_by node refusal }
{
    After {
        node,
        verdict: Err(refusal),
    }
}

fn blocks(cause: u8) -> bool
    ensures { result ≡ blocks cause }
{
    matches!(cause, 0x20..=0x22)
}
