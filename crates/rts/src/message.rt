// The messages of 002.
ghost use Rattle.std.specs.Prelude.{◌≡◌, length};
ghost use Rattle.rts.specs.Fields.{four_of};
ghost use Rattle.rts.specs.Spelling.{spelled_by};
ghost use Rattle.rts.specs.Table.{number_of, data_of};

use crate::data::{Contact, Counts, Frames, Mode, Position, Step, Sun};

#[derive(Clone, Copy, PartialEq, Eq)]
pub enum Message {
    // 80h.
    CtrlPosition(Position),
    // 81h.
    CtrlTilt(Step),
    // 82h.
    CtrlDim(Step),
    // 90h.
    SetChannelMode(Mode),
    // 91h.
    SetTiltFramecount(Counts),
    // 92h.
    SetDimFramecount(Frames),
    // 93h.
    SetSunAuto(Sun),
    // 94h.
    SetDctLock(Contact),
    // 97h: sends PROG.
    SetChannel { channel: u8 },
    // 98h: opens the programming mode.
    SetOpenProg { channel: u8 },
    // 9Ah: saves the favourite position.
    SetIp { channel: u8 },
    // A0h.
    GetChannelMode { channel: u8 },
    // A1h.
    GetTiltFramecount { channel: u8 },
    // A2h.
    GetDimFramecount { channel: u8 },
    // A4h.
    GetDctLock,
    // B0h.
    PostChannelMode(Mode),
    // B1h.
    PostTiltFramecount(Counts),
    // B2h.
    PostDimFramecount(Frames),
    // B4h. Bits 1 to 5: that input is locked; bits 0, 6 and 7 are 0.
    PostDctLock { locked: u8 },
}

impl Message {
    // MSG.
    pub fn number(self) -> u8
        ensures { result ≡ number_of self }
    {
        self.line().number
    }

    // How many bytes DATA has.
    pub fn count(self) -> usize
        ensures { result ≡ length (data_of self) }
    {
        self.line().count
    }

    // The bytes of DATA in their order, zeros behind them.
    pub fn fields(self) -> [u8; 4]
        ensures { result ≡ four_of (data_of self) }
    {
        self.line().fields
    }
}

// The message of this MSG, its fields taken from the bytes in their order; none where the list has no such MSG.
#[tactic(auto, unfolding(crate::specs::Spelling::spelled_by))]
pub fn message_of(number: u8, fields: [u8; 4]) -> Option<Message>
    ensures { result ≡ spelled_by number fields }
{
    let [first, second, third, fourth] = fields;
    let step = Step {
        channel: first,
        direction: second,
        value: third,
    };
    let mode = Mode {
        channel: first,
        ergonomics: second,
        movement: third,
        modulis: fourth,
    };
    let counts = Counts {
        channel: first,
        us: second,
        ce: third,
    };
    let frames = Frames {
        channel: first,
        count: second,
    };
    let message = match number {
        0x80 => Message::CtrlPosition(Position {
            channel: first,
            order: second,
        }),
        0x81 => Message::CtrlTilt(step),
        0x82 => Message::CtrlDim(step),
        0x90 => Message::SetChannelMode(mode),
        0x91 => Message::SetTiltFramecount(counts),
        0x92 => Message::SetDimFramecount(frames),
        0x93 => Message::SetSunAuto(Sun {
            channel: first,
            off: second,
        }),
        0x94 => Message::SetDctLock(Contact {
            input: first,
            lock: second,
        }),
        0x97 => Message::SetChannel { channel: first },
        0x98 => Message::SetOpenProg { channel: first },
        0x9A => Message::SetIp { channel: first },
        0xA0 => Message::GetChannelMode { channel: first },
        0xA1 => Message::GetTiltFramecount { channel: first },
        0xA2 => Message::GetDimFramecount { channel: first },
        0xA4 => Message::GetDctLock,
        0xB0 => Message::PostChannelMode(mode),
        0xB1 => Message::PostTiltFramecount(counts),
        0xB2 => Message::PostDimFramecount(frames),
        0xB4 => Message::PostDctLock { locked: first },
        _ => return None,
    };
    Some(message)
}
