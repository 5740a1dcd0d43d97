// The answer to an outcome: a frame to the asker, or silence.
ghost use Rattle.std.specs.Prelude.{◌≡◌, ◌≤◌, length};
ghost use Rattle.frame.specs.Writing.{writing_of, buffer_after};
ghost use Rattle.messages.specs.Outcome.{content_of};
ghost use Rattle.node.specs.Replies.{is_said, message_of, reply_header, say_header, answered};

use crate::turn::{Reply, Turn, silent};
use board::Settings;
use frame::Header;
use messages::{Outcome, Say};
use refusal::Refusal;

// The turn that an outcome leads to: a reply of 31 bytes of its own, where one is said.
pub(crate) fn answered(settings: Settings, request: Header, outcome: Outcome) -> Turn
    requires { outcome.count ≤ 20 }
    ensures { result ≡ answered settings request outcome }
{
    if !is_said(outcome.say, request.ack) {
        return silent(outcome.node, outcome.change);
    }
    let mut bytes = [0u8; 31];
    // Stays: `answered` counts no byte where the writer refuses (`length_of`), which it never does here.
    let count = write_reply(&mut bytes, 0, settings, request, outcome).unwrap_or(0);
    Turn {
        node: outcome.node,
        change: outcome.change,
        answer: Ok(Some(Reply { count, bytes })),
    }
}

// The only place where a reply is made: by the frame writer, at a place of a lent buffer.
fn write_reply(
    buffer: &mut [u8],
    place: usize,
    settings: Settings,
    request: Header,
    outcome: Outcome,
) -> Result<usize, Refusal>
    requires { outcome.count ≤ 20 }
    ensures value { result ≡ writing_of (length buffer.old) place (say_header settings request outcome) (content_of outcome) }
    ensures buffer_after { buffer.new ≡ buffer_after buffer.old place (say_header settings request outcome) (content_of outcome) }
{
    let header = reply_header(settings, request, message_of(outcome.say));
    let content = outcome.content;
    frame::write(buffer, place, header, &content[..outcome.count])
}

// A POST is said whatever the ACK bit; all else only where it is asked for.
fn is_said(say: Say, ack: bool) -> bool
    ensures { result ≡ is_said say ack }
{
    match say {
        Say::Post(_) => true,
        Say::Done | Say::Refuse(_) => ack,
    }
}

fn message_of(say: Say) -> u8
    ensures { result ≡ message_of say }
{
    match say {
        Say::Done => 0x7F,
        Say::Post(message) => message,
        Say::Refuse(_) => 0x6F,
    }
}

// Own NodeID and type as sender; DEST and receiver type are the request's SOURCE and sender type; ACK 0.
fn reply_header(settings: Settings, request: Header, message: u8) -> Header
    ensures { result ≡ reply_header settings request message }
{
    Header {
        message,
        ack: false,
        sender: settings.kind,
        receiver: request.sender,
        source: settings.id,
        destination: request.source,
    }
}
