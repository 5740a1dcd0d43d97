// Bytes through the reader's run.
use frame::Header;
use line::Reader;
use refusal::Refusal;

// A recording, read to its end: 256 for each frame, with its message and its eleventh byte, and the number of each refusal.
#[unsafe(no_mangle)]
pub extern "C" fn speed_reader(bytes: &[u8], silences: &[u16]) -> u64 {
    let mut reader = Reader::fresh();
    let mut place: usize = 0;
    let mut total: u64 = 0;
    // Stays: a loop has to end, by the rules of the check, and a turn takes a byte at least.
    for _ in 0..bytes.len() {
        let ran = reader.run(bytes, silences, place);
        reader = ran.stepped.reader;
        place = ran.place;
        total = total.wrapping_add(worth(ran.stepped.answer, ran.stepped.bundle));
        if place >= bytes.len() {
            break;
        }
    }
    let closed = reader.close();
    total.wrapping_add(worth(closed.answer, closed.bundle))
}

fn worth(answer: Result<Option<(Header, usize)>, Refusal>, bundle: [u8; 31]) -> u64 {
    match answer {
        Ok(None) => 0,
        Ok(Some((header, _))) => frame_worth(header.message, bundle[10]),
        Err(refusal) => u64::from(refusal.number()),
    }
}

fn frame_worth(message: u8, byte: u8) -> u64 {
    256 + u64::from(message) + u64::from(byte)
}
