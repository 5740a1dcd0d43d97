// A message's line in 002's list.
ghost use Rattle.std.specs.Prelude.{◌≡◌, map, get_or};
ghost use Rattle.std.specs.List.{list_all};
ghost use Rattle.rts.specs.Fields.{fits, value_of, four_of, line_as};
ghost use Rattle.rts.specs.Table.{line_of};

use crate::field::Field;
use crate::message::Message;

// A message on the wire.
// Stays: a count beside its fields, since the memory is fixed and no message has more than four.
#[derive(Clone, Copy)]
pub(crate) struct Line {
    // MSG.
    pub(crate) number: u8,
    // How many bytes DATA has.
    pub(crate) count: usize,
    // The bytes of DATA, zeros behind them.
    pub(crate) fields: [u8; 4],
    // Every field is in its range.
    pub(crate) fitting: bool,
}

impl Line {
    fn of(number: u8, fields: &[Field]) -> Line
        ensures { result ≡ line_as number fields.now }
    {
        Line {
            number,
            count: fields.len(),
            fields: four(fields),
            fitting: fit(fields),
        }
    }
}

// Every field is in its range.
fn fit(fields: &[Field]) -> bool
    ensures { result ≡ list_all (λ field. (fits field).holds) fields.now }
{
    fields.iter().all(|field| field.fits())
}

// The values of the first four, zeros past their end.
fn four(fields: &[Field]) -> [u8; 4]
    ensures { result ≡ four_of (map value_of fields.now) }
{
    std::array::from_fn(|place| value_at(fields, place))
}

fn value_at(fields: &[Field], place: usize) -> u8
    ensures { result ≡ get_or (map value_of fields.now) place 0 }
{
    fields.get(place).map_or(0, |field| field.value)
}

impl Message {
    // Taken in by the reader and the writer, each then finds all of the list by one jump: docs/SPEED.md.
    #[inline(always)]
    pub(crate) fn line(self) -> Line
        ensures { result ≡ line_of self }
    {
        match self {
            Message::CtrlPosition(position) => Line::of(0x80, &position.fields()),
            Message::CtrlTilt(step) => Line::of(0x81, &step.fields()),
            Message::CtrlDim(step) => Line::of(0x82, &step.fields()),
            Message::SetChannelMode(mode) => Line::of(0x90, &mode.fields()),
            Message::SetTiltFramecount(counts) => Line::of(0x91, &counts.fields()),
            Message::SetDimFramecount(frames) => Line::of(0x92, &frames.fields()),
            Message::SetSunAuto(sun) => Line::of(0x93, &sun.fields()),
            Message::SetDctLock(contact) => Line::of(0x94, &contact.fields()),
            Message::SetChannel { channel } => Line::of(0x97, &[Field::channel(channel)]),
            Message::SetOpenProg { channel } => Line::of(0x98, &[Field::channel(channel)]),
            Message::SetIp { channel } => Line::of(0x9A, &[Field::channel(channel)]),
            Message::GetChannelMode { channel } => Line::of(0xA0, &[Field::channel(channel)]),
            Message::GetTiltFramecount { channel } => Line::of(0xA1, &[Field::channel(channel)]),
            Message::GetDimFramecount { channel } => Line::of(0xA2, &[Field::channel(channel)]),
            Message::GetDctLock => Line::of(0xA4, &[]),
            Message::PostChannelMode(mode) => Line::of(0xB0, &mode.fields()),
            Message::PostTiltFramecount(counts) => Line::of(0xB1, &counts.fields()),
            Message::PostDimFramecount(frames) => Line::of(0xB2, &frames.fields()),
            Message::PostDctLock { locked } => Line::of(0xB4, &[Field::inputs(locked)]),
        }
    }
}
