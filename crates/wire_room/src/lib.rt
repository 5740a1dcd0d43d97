// The line reader's commands and the writer's.
#![tactic(auto)]

ghost use Rattle.std.specs.Prelude.{◌≡◌, ℕ, true, length, take};
ghost use Rattle.line.specs.Reader.{close_of, fresh, step_of};
ghost use Rattle.wire_room.specs.Written.{is_write};

use console::{Rows, Said, WireCommand, first};
use frame::Header;
use line::{Reader, Stepped};

// The line reader on the bench.
#[derive(Clone, Copy)]
pub struct WireRoom {
    pub reader: Reader,
}

impl WireRoom {
    // A fresh start has a fresh line reader.
    pub fn new() -> WireRoom
        ensures { result.reader ≡ fresh }
    {
        WireRoom {
            reader: Reader::fresh(),
        }
    }

    #[tactic(auto, unfolding(crate::specs::Written::is_write))]
    pub fn obey(&mut self, command: WireCommand<'_>, rows: &mut Rows)
        ensures byte { (byte silence : ℕ) → command.entry ≡ WireCommand.Byte byte silence → self.new.reader ≡ (step_of self.old.reader byte silence).reader }
        ensures close { command.entry ≡ WireCommand.Close → self.new.reader ≡ (close_of self.old.reader).reader }
        ensures write { is_write command.entry ≡ true → self.new.reader ≡ self.old.reader }
        ensures rows { take (length rows.old) rows.new ≡ rows.old }
    {
        match command {
            WireCommand::Byte { byte, silence } => self.go_on(
                self.reader.step(byte, silence),
                rows,
            ),
            WireCommand::Close => self.go_on(self.reader.close(), rows),
            WireCommand::Write { header, content } => put_written(header, content, rows),
        }
    }

    fn go_on(&mut self, stepped: Stepped, rows: &mut Rows)
        ensures reader { self.new.reader ≡ stepped.reader }
        ensures rows { take (length rows.old) rows.new ≡ rows.old }
    {
        self.reader = stepped.reader;
        let bundle = stepped.bundle;
        match stepped.answer {
            Ok(None) => rows.put(Said::Nothing),
            Ok(Some((_, content))) => rows.put(Said::Frame(first(&bundle, frame_length(content)))),
            Err(refusal) => rows.put(Said::Refused(refusal)),
        }
    }
}

// Eleven bytes beside DATA.
fn frame_length(content: usize) -> usize {
    content.saturating_add(11)
}

fn put_written(header: Header, content: &[u8], rows: &mut Rows)
    ensures { take (length rows.old) rows.new ≡ rows.old }
{
    let mut buffer = [0; 31];
    let writing = frame::write(&mut buffer, 0, header, content);
    rows.put(Said::wire(writing, &buffer));
}
