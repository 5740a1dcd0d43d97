// Which command a line is, with the values of its words.
ghost use Rattle.std.specs.Prelude.{◌≡◌, ◌≢◌, ◌<◌, length, slice_index, IsErr};

use crate::words::{BadLine, Words};
use board::{Plate, Settings};
use frame::{Address, Header};
use std::str;
use travel::Pulse;

// A command, by the part of the bench that it is for.
#[derive(Clone, Copy)]
pub enum Command<'a> {
    // `frame HEX`
    Frame(&'a [u8]),
    Board(BoardCommand),
    Register(RegisterCommand<'a>),
    Wire(WireCommand<'a>),
    Rts(RtsCommand<'a>),
}

#[derive(Clone, Copy)]
pub enum BoardCommand {
    // `node ID DEC DEC`, and with a plate `DEC BYTE BYTE HEX` behind these
    SetUp(Settings),
    Event(Event),
    State,
}

// What the board reports from its own motor and supply.
#[derive(Clone, Copy)]
pub enum Event {
    // `pulse DEC`
    Pulse(Pulse),
    // `blocked BYTE`
    Blocked(u8),
    Cleared,
    Power,
}

#[derive(Clone, Copy)]
pub enum RegisterCommand<'a> {
    // `line DEC HEX`
    Line { line: u8, bundle: &'a [u8] },
    // `strike DEC ID`
    Strike { line: u8, id: Address },
    Motors,
    Store,
    // `load HEX`
    Load(&'a [u8]),
}

#[derive(Clone, Copy)]
pub enum WireCommand<'a> {
    // `byte BYTE DEC`
    Byte { byte: u8, silence: u16 },
    Close,
    // `write BYTE DEC DEC DEC DEC DEC HEX`
    Write { header: Header, content: &'a [u8] },
}

#[derive(Clone, Copy)]
pub enum RtsCommand<'a> {
    // `rts HEX`
    Read(&'a [u8]),
    // `rtswrite BYTE DEC DEC DEC DEC DEC FIELDS`: as many fields as are typed, and none behind them.
    Write {
        header: Header,
        fields: [Option<u8>; 4],
    },
}

// The longest line that is one.
const LONGEST: usize = 8192;

impl<'a> Command<'a> {
    // The command of a line; none where it is empty or a comment. The bytes of its HEX go into the room that is lent.
    pub fn parse(line: &[u8], room: &'a mut [u8; 4096]) -> Result<Option<Command<'a>>, BadLine>
        ensures empty { length line.now ≡ 0 → result ≡ Ok None }
        ensures comment { 0 < length line.now → slice_index line.now 0 ≡ 35 → result ≡ Ok None }
        ensures too_long { 8192 < length line.now → slice_index line.now 0 ≢ 35 → IsErr result }
    {
        if matches!(line.first(), None | Some(b'#')) {
            return Ok(None);
        }
        if line.len() > LONGEST {
            return Err(BadLine);
        }
        let mut words = Words::of(str::from_utf8(line)?);
        let command = command_of(&mut words, room)?;
        words.end()?;
        Ok(Some(command))
    }
}

fn command_of<'a>(words: &mut Words<'_>, room: &'a mut [u8; 4096]) -> Result<Command<'a>, BadLine> {
    match words.word()? {
        "frame" => Ok(Command::Frame(words.hex(room)?)),
        "node" => Ok(Command::Board(BoardCommand::SetUp(settings_of(words)?))),
        "pulse" => Ok(report(Event::Pulse(Pulse(words.decimal()?)))),
        "blocked" => Ok(report(Event::Blocked(words.byte()?))),
        "cleared" => Ok(report(Event::Cleared)),
        "power" => Ok(report(Event::Power)),
        "state" => Ok(Command::Board(BoardCommand::State)),
        "line" => Ok(Command::Register(RegisterCommand::Line {
            line: words.decimal()?,
            bundle: words.hex(room)?,
        })),
        "strike" => Ok(Command::Register(RegisterCommand::Strike {
            line: words.decimal()?,
            id: words.id()?,
        })),
        "motors" => Ok(Command::Register(RegisterCommand::Motors)),
        "store" => Ok(Command::Register(RegisterCommand::Store)),
        "load" => Ok(Command::Register(RegisterCommand::Load(words.hex(room)?))),
        "byte" => Ok(Command::Wire(WireCommand::Byte {
            byte: words.byte()?,
            silence: words.decimal()?,
        })),
        "close" => Ok(Command::Wire(WireCommand::Close)),
        "write" => Ok(Command::Wire(WireCommand::Write {
            header: header_of(words)?,
            content: words.hex(room)?,
        })),
        "rts" => Ok(Command::Rts(RtsCommand::Read(words.hex(room)?))),
        "rtswrite" => Ok(Command::Rts(RtsCommand::Write {
            header: header_of(words)?,
            fields: fields_of(words)?,
        })),
        _ => Err(BadLine),
    }
}

fn report<'a>(event: Event) -> Command<'a> {
    Command::Board(BoardCommand::Event(event))
}

fn settings_of(words: &mut Words<'_>) -> Result<Settings, BadLine> {
    Ok(Settings {
        id: words.id()?,
        kind: words.decimal()?,
        travel: Pulse(words.decimal()?),
        plate: plate_of(words)?,
    })
}

fn plate_of(words: &mut Words<'_>) -> Result<Plate, BadLine> {
    if words.is_over() {
        return Ok(Plate::PLAIN);
    }
    Ok(Plate {
        reference: words.decimal()?,
        letter: words.byte()?,
        number: words.byte()?,
        origin: words.bytes()?,
    })
}

fn header_of(words: &mut Words<'_>) -> Result<Header, BadLine> {
    Ok(Header {
        message: words.byte()?,
        ack: words.flag()?,
        sender: words.decimal()?,
        receiver: words.decimal()?,
        source: Address(words.decimal()?),
        destination: Address(words.decimal()?),
    })
}

fn fields_of(words: &mut Words<'_>) -> Result<[Option<u8>; 4], BadLine> {
    let mut fields = [None; 4];
    for field in &mut fields {
        if !words.is_over() {
            *field = Some(words.decimal()?);
        }
    }
    Ok(fields)
}
