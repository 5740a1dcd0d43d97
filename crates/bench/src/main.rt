// The bench: a console for one board, one register and one line. Everything that matters is in the libraries.
#![tactic(auto)]

mod bus;
mod rooms;

use console::{Input, Line, Rows};
use rooms::Rooms;
use std::io;
use std::io::Write;

// Rows are written out once so many bytes of them have gathered, and before more is read, so whoever types a line sees its row; behind that the
// longest answer has room.
const GATHERED: usize = 32768;

// Stays: a loop has to end, by the rules of the check, and nothing says that the input does; no run reaches the number.
fn main(rt: HostRuntime) -> io::Result<()> {
    let mut stdin = rt.stdin();
    let mut stdout = rt.stdout();
    let mut input = Input::new();
    let mut line = Line::new();
    let mut rooms = Rooms::new();
    let mut rows = Rows::new();
    for _ in 0..u64::MAX {
        line.take(input.part(&mut stdin));
        rooms.obey(line.text(), &mut rows);
        if rows.as_bytes().len() >= GATHERED || input.is_used_up() {
            stdout.write_all(rows.as_bytes())?;
            rows.clear();
        }
        if input.is_over() {
            break;
        }
    }
    Ok(())
}
