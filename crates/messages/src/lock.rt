// SET_NETWORK_LOCK, and what is told of the lock.
ghost use Rattle.std.specs.Prelude.{◌≡◌, true, false, not, ◌&&◌, leb, MatchOption};
ghost use Rattle.meaning.specs.Membership.{is_in};
ghost use Rattle.frame.specs.Layout.{data_of};
ghost use Rattle.board.specs.Lock.{admits};
ghost use Rattle.messages.specs.Locking.{lock_functions, function_of, lock_by, locked_by, set_lock_row, lock_data, lock_row};

use crate::code::Code;
use crate::fields::shorter_than;
use crate::motor::halted;
use crate::outcome::{Outcome, acts, posts, refuses};
use board::{Lock, Node};
use frame::{Address, data_byte};

// What SET_NETWORK_LOCK is to do.
#[derive(Clone, Copy)]
pub enum Locking {
    Unlock,
    Lock,
    SetSaved,
    ClearSaved,
}

// 16h SET_NETWORK_LOCK: function, priority.
#[tactic(auto, unfolding(crate::specs::Locking::set_lock_row))]
pub(crate) fn set_lock(node: Node, source: Address, bundle: &[u8]) -> Outcome
    ensures { result ≡ set_lock_row node source (data_of bundle.now) }
{
    if shorter_than(bundle, 2) {
        return refuses(node, Code::TooLittleData);
    }
    let Some(locking) = locking_of(data_byte(bundle, 0)) else {
        return refuses(node, Code::OutOfRange);
    };
    let priority = data_byte(bundle, 1);
    if is_outranked(node.lock, locking, priority) {
        return refuses(node, Code::PriorityTooLow);
    }
    acts(locked_by(node, source, locking, priority), None)
}

// 26h, answered 36h: status, source, priority, saved.
#[tactic(auto, unfolding(crate::specs::Locking::lock_row))]
pub(crate) fn post_lock(node: Node) -> Outcome
    ensures { result ≡ lock_row node }
{
    posts(node, 0x36, &lock_told(node))
}

// None where it is out of range.
fn locking_of(function: u8) -> Option<Locking>
    ensures { MatchOption result (is_in function lock_functions ≡ false)
        (λ locking. (is_in function lock_functions ≡ true) × (function ≡ function_of locking)) }
{
    match function {
        0 => Some(Locking::Unlock),
        1 => Some(Locking::Lock),
        3 => Some(Locking::SetSaved),
        4 => Some(Locking::ClearSaved),
        _ => None,
    }
}

// To unlock or lock takes a priority at least the holder's if locked.
fn is_outranked(lock: Lock, locking: Locking, priority: u8) -> bool
    ensures { result ≡ (leb (function_of locking) 1 && not (admits lock priority)) }
{
    matches!(locking, Locking::Unlock | Locking::Lock) && !lock.admits(priority)
}

// A lock stops a running motor as STOP does.
fn locked_by(node: Node, source: Address, locking: Locking, priority: u8) -> Node
    ensures { result ≡ locked_by node source (function_of locking) priority }
{
    let lock = lock_by(node.lock, source, locking, priority);
    match locking {
        Locking::Lock => halted(node).with_lock(lock),
        _ => node.with_lock(lock),
    }
}

fn lock_by(lock: Lock, source: Address, locking: Locking, priority: u8) -> Lock
    ensures { result ≡ lock_by lock source (function_of locking) priority }
{
    match locking {
        Locking::Unlock => lock.unlocked(),
        Locking::Lock => lock.locked(source, priority),
        Locking::SetSaved => lock.saving(true),
        Locking::ClearSaved => lock.saving(false),
    }
}

// Status, source, priority, saved.
fn lock_told(node: Node) -> [u8; 6]
    ensures { result ≡ lock_data node }
{
    let Lock {
        holder,
        locked,
        priority,
        saved,
    } = node.lock;
    let [low, middle, high] = holder.to_bytes();
    [
        u8::from(locked),
        low,
        middle,
        high,
        priority,
        u8::from(saved),
    ]
}
