// Frames that arrive at the board.
use board_room::BoardRoom;
use console::{Rows, Said, first};
use node::Turn;

pub fn arrive(room: &mut BoardRoom, bundle: &[u8], rows: &mut Rows) {
    let Some(awning) = room.awning else {
        rows.put(Said::NoNode);
        return;
    };
    let turn = node::on_frame(awning.node, awning.groups, bundle);
    room.turn(awning, turn.node, turn.change);
    put_answer(turn, rows);
}

fn put_answer(turn: Turn, rows: &mut Rows) {
    match turn.answer {
        Ok(None) => rows.put(Said::Silent),
        Ok(Some(reply)) => rows.put(Said::Reply(first(&reply.bytes, reply.count))),
        Err(refusal) => rows.put(Said::Refused(refusal)),
    }
}
