// Lines out of what is read, a chunk at a time.
ghost use Rattle.std.specs.Prelude.{◌≡◌, ◌≤◌, ◌⊎◌, [], ◌++◌, eqb, length, take};
ghost use Rattle.console.specs.Line.{text_of};

use crate::gathered::Gathered;
use std::io::Read;
use std::marker::Model;

// What is read of the input: the chunk has so many bytes, none where the input is over, and is used up to a place.
// Stays: no heap, so the chunk lies in an array with its place beside it.
#[derive(Clone, Copy)]
pub struct Input {
    chunk: [u8; 65536],
    have: usize,
    next: usize,
    ghost within: { next ≤ have },
    ghost fits: { have ≤ 65536 },
}

impl Input {
    pub fn new() -> Input
        ensures used_up { result.next ≡ result.have }
        ensures over { result.have ≡ 0 }
    {
        Input {
            chunk: [0; 65536],
            have: 0,
            next: 0,
        }
    }

    // The next line with its line feed, or what the chunk has of it; none at the end. A chunk that is used up is read anew.
    pub fn part(&mut self, reader: &mut impl Read) -> &[u8]
        ensures { length result.now ≤ 65536 }
    {
        if self.is_used_up() {
            self.read_some(reader);
        }
        let from = self.next;
        self.next = from + part_length(&self.chunk[from..self.have]);
        &self.chunk[from..self.next]
    }

    // One read; a failed one ends the input, as one of no bytes does.
    fn read_some(&mut self, reader: &mut impl Read) {
        let have = reader.read(&mut self.chunk).unwrap_or(0);
        self.have = have;
        self.next = 0;
    }

    // Every byte of the chunk is taken.
    pub fn is_used_up(&self) -> bool
        ensures { result ≡ eqb self.now.next self.now.have }
    {
        self.next == self.have
    }

    pub fn is_over(&self) -> bool
        ensures { result ≡ eqb self.now.have 0 }
    {
        self.have == 0
    }
}

// Up to behind the first line feed, or all.
fn part_length(unread: &[u8]) -> usize
    ensures { result ≤ length unread.now }
{
    unread
        .iter()
        .position(|byte| *byte == b'\n')
        .map_or(unread.len(), |place| place + 1)
}

// What has ended a line: nothing as yet, where it goes on.
#[derive(Clone, Copy, PartialEq, Eq)]
enum End {
    Open,
    LineFeed,
    Input,
}

fn text_and_end(part: &[u8]) -> (&[u8], End)
    ensures { result.0.now ≡ text_of part.now }
{
    match part {
        [] => (part, End::Input),
        [text @ .., b'\n'] => (text, End::LineFeed),
        _ => (part, End::Open),
    }
}

// A line as its parts come: what is held of it.
#[derive(Drop)]
pub struct Line {
    // The longest line, a carriage return and one byte more: what is longer is too long by these.
    held: Gathered<8194>,
    end: End,
}

impl Model for Line {
    ghost use Rattle.std.specs.Prelude.{ℕ, List};

    ghost Value = { List ℕ };

    ghost view = { λ line. line.held };
}

impl Line {
    pub fn new() -> Line
        ensures { result ≡ [] }
    {
        Line {
            held: Gathered::new(),
            end: End::LineFeed,
        }
    }

    // A part goes behind what is held, or begins the next line.
    pub fn take(&mut self, part: &[u8])
        ensures { (self.new ≡ take 8194 (text_of part.now)) ⊎ (self.new ≡ take 8194 (self.old ++ text_of part.now)) }
    {
        if self.end != End::Open {
            self.held.clear();
        }
        let (text, end) = text_and_end(part);
        self.held.hold(text);
        self.end = end;
    }

    // The line; none, as if it was empty, where it goes on. At the end of the input it may lack its line feed.
    pub fn text(&self) -> &[u8]
        ensures { length result.now ≤ length self.now }
    {
        let held = self.held.as_slice();
        match self.end {
            End::Open => &[],
            // A carriage return just before the line feed is not part of the line.
            End::LineFeed => held.strip_suffix(b"\r").unwrap_or(held),
            End::Input => held,
        }
    }
}
