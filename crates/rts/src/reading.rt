// Reading a bundle as a typed message.
ghost use Rattle.std.specs.Prelude.{◌≡◌};
ghost use Rattle.frame.specs.Layout.{data_of};
ghost use Rattle.rts.specs.Reading.{received_of, taken_from};
ghost use Rattle.rts.specs.Fields.{four_of};

use crate::envelope::Envelope;
use crate::message::{Message, message_of};
use frame::{Header, data_byte};
use refusal::Refusal;

// Rows 1 to 6, then 18, 16 and 15, in this order.
#[tactic(auto, unfolding(crate::specs::Reading::received_of))]
pub fn read(bundle: &[u8]) -> Result<(Envelope, Message), Refusal>
    ensures { result ≡ received_of bundle.now }
{
    let (header, count) = frame::read(bundle)?;
    taken(header, count, bundle)
}

// Row 18: the list has no such MSG.
fn taken(header: Header, count: usize, bundle: &[u8]) -> Result<(Envelope, Message), Refusal>
    ensures { result ≡ taken_from header count (data_of bundle.now) }
{
    let Some(message) = message_of(header.message, four(bundle)) else {
        return Err(Refusal::UnlistedMessage);
    };
    // Rows 16 and 15.
    let line = message.line();
    if count != line.count {
        return Err(Refusal::WrongDataCount);
    }
    if !line.fitting {
        return Err(Refusal::FieldOutOfRange);
    }
    Ok((Envelope::from(header), message))
}

// The first four bytes of DATA, zeros past its end.
fn four(bundle: &[u8]) -> [u8; 4]
    ensures { result ≡ four_of (data_of bundle.now) }
{
    std::array::from_fn(|place| data_byte(bundle, place))
}
