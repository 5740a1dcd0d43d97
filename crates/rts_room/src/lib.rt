// The commands of the transmitter's messages: a bundle read as one, and one written.
#![tactic(auto)]

ghost use Rattle.std.specs.Prelude.{◌≡◌, length, take};

use console::{Rows, RtsCommand, Said, first};
use frame::Header;
use rts::{Envelope, Message};
use std::fmt;

pub fn obey(command: RtsCommand<'_>, rows: &mut Rows)
    ensures { take (length rows.old) rows.new ≡ rows.old }
{
    match command {
        RtsCommand::Read(bundle) => match rts::read(bundle) {
            Ok((envelope, message)) => rows.put(MessageRow { envelope, message }),
            Err(refusal) => rows.put(Said::Refused(refusal)),
        },
        RtsCommand::Write { header, fields } => match message_of(header.message, fields) {
            Some(message) => put_written(Envelope::from(header), message, rows),
            None => rows.put(Said::BadLine),
        },
    }
}

// None where the list has no such MSG, or one with another number of fields.
fn message_of(number: u8, typed: [Option<u8>; 4]) -> Option<Message> {
    let count = typed.iter().flatten().count();
    let fields = typed.map(|field| field.unwrap_or(0));
    rts::message_of(number, fields).filter(|message| message.count() == count)
}

fn put_written(envelope: Envelope, message: Message, rows: &mut Rows)
    ensures { take (length rows.old) rows.new ≡ rows.old }
{
    let mut buffer = [0; 31];
    let writing = rts::write(&mut buffer, 0, envelope, message);
    rows.put(Said::wire(writing, &buffer));
}

// MSG, the envelope, and as many fields as the message has.
#[derive(Clone, Copy)]
struct MessageRow {
    envelope: Envelope,
    message: Message,
}

impl fmt::Display for MessageRow {
    fn fmt<W: fmt::Write>(&self, f: &mut fmt::Formatter<W>) -> fmt::Result {
        let envelope = self.envelope;
        let message = self.message;
        let number = message.number();
        let ack = u8::from(envelope.ack);
        let sender = envelope.sender;
        let receiver = envelope.receiver;
        let source = envelope.source.0;
        let destination = envelope.destination.0;
        write!(
            f,
            "rts {number:02X} {ack} {sender} {receiver} {source} {destination}"
        )?;
        let fields = message.fields();
        for field in first(&fields, message.count()) {
            write!(f, " {field}")?;
        }
        Ok(())
    }
}
