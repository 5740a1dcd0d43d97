// Writing a typed message as a frame, at any place of a lent buffer.
ghost use Rattle.std.specs.Prelude.{◌≡◌, length};
ghost use Rattle.frame.specs.Writing.{in_place_of_room};
ghost use Rattle.refusal.specs.declared.Refusal.{Refusal};
ghost use Rattle.rts.specs.Writing.{written_of, buffer_after};

use crate::envelope::Envelope;
use crate::message::Message;
use refusal::Refusal;

// Rows 10, 11, 15 and 14, in this order: the frame writer's own, and 15 before its last.
pub fn write(
    buffer: &mut [u8],
    place: usize,
    envelope: Envelope,
    message: Message,
) -> Result<usize, Refusal>
    ensures value { result ≡ written_of (length buffer.old) place envelope message }
    ensures buffer_after { buffer.new ≡ buffer_after buffer.old place envelope message }
{
    let line = message.line();
    let fields = line.fields;
    let count = line.count;
    let header = envelope.header(line.number);
    if line.fitting {
        return frame::write(buffer, place, header, &fields[..count]);
    }
    // Lent no room, the frame writer refuses by rows 10 and 11, or else by 14.
    in_place_of_room(frame::write(&mut buffer[..0], 0, header, &fields[..count]))
}

// Row 15 in the place of row 14; who was lent no room has not written.
fn in_place_of_room(writing: Result<usize, Refusal>) -> Result<usize, Refusal>
    ensures { result ≡ in_place_of_room Refusal.FieldOutOfRange writing }
{
    match writing {
        Ok(_) | Err(Refusal::NoRoom) => Err(Refusal::FieldOutOfRange),
        Err(refusal) => Err(refusal),
    }
}
