// What stands on the bench, each part in its room.
use crate::bus;
use board_room::BoardRoom;
use console::{BadLine, Command, Rows, Said};
use register_room::RegisterRoom;
use wire_room::WireRoom;

#[derive(Clone, Copy)]
pub struct Rooms {
    board: BoardRoom,
    register: RegisterRoom,
    wire: WireRoom,
}

impl Rooms {
    pub fn new() -> Rooms {
        Rooms {
            board: BoardRoom::default(),
            register: RegisterRoom::new(),
            wire: WireRoom::new(),
        }
    }

    pub fn obey(&mut self, line: &[u8], rows: &mut Rows) {
        let mut room = [0; 4096];
        match Command::parse(line, &mut room) {
            Ok(Some(command)) => self.carry_out(command, rows),
            Ok(None) => {}
            Err(BadLine) => rows.put(Said::BadLine),
        }
    }

    fn carry_out(&mut self, command: Command<'_>, rows: &mut Rows) {
        match command {
            Command::Frame(bundle) => bus::arrive(&mut self.board, bundle, rows),
            Command::Board(command) => self.board.obey(command, rows),
            Command::Register(command) => self.register.obey(command, rows),
            Command::Wire(command) => self.wire.obey(command, rows),
            Command::Rts(command) => rts_room::obey(command, rows),
        }
    }
}
