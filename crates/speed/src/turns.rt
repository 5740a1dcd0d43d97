// A board's turns.
use crate::slots::{SLOT, bundle, names_pulse, pulse};
use board::{Node, Plate, Settings};
use frame::Address;
use node::Reply;
use refusal::Refusal;
use travel::Pulse;

// A board takes slot after slot, at the pulse that some name: the sum of the replies' bytes counted, of two bytes of
// each, and of the refusals' numbers.
#[unsafe(no_mangle)]
pub extern "C" fn speed_board(slots: &[u8], id: u32, kind: u8, travel: u16) -> u64 {
    let mut node = powered_up(id, kind, travel);
    let mut groups = board::no_groups();
    let (slots, _) = slots.as_chunks::<SLOT>();
    let mut total: u64 = 0;
    for slot in slots {
        if names_pulse(slot) {
            node = board::at_pulse(node, Pulse(pulse(slot))).node;
        }
        let turn = node::on_frame(node, groups, bundle(slot));
        node = turn.node;
        // Stays: tried, and a call's result that goes straight into an array gets no proof from the check.
        let table = board::apply(groups, turn.change);
        groups = table;
        total = total.wrapping_add(worth(turn.answer));
    }
    total
}

// A fresh board is powered up, as in C.
fn powered_up(id: u32, kind: u8, travel: u16) -> Node {
    let settings = Settings {
        id: Address(id),
        kind,
        travel: Pulse(travel),
        plate: Plate::PLAIN,
    };
    board::power_up(Node::fresh(settings)).node
}

// The eleventh and twelfth byte of a 0Dh are the pulse's high byte and the percent.
fn worth(answer: Result<Option<Reply>, Refusal>) -> u64 {
    match answer {
        Ok(None) => 0,
        Ok(Some(reply)) => (reply.count as u64).wrapping_add(sum(reply.bytes[10], reply.bytes[11])),
        Err(refusal) => u64::from(refusal.number()),
    }
}

fn sum(one: u8, other: u8) -> u64 {
    u64::from(one) + u64::from(other)
}
