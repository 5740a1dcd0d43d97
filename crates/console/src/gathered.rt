// Bytes that gather in fixed memory.
ghost use Rattle.std.specs.Prelude.{◌≡◌, ◌↔◌, ◌+◌, ◌≤◌, [], ◌++◌, length, take, IsOk, OnErr};

use crate::rows::first;
use std::fmt;
use std::marker::Model;

// Stays: no heap, so the bytes lie in an array with their count beside it.
#[derive(Drop)]
pub(crate) struct Gathered<const N: usize> {
    bytes: [u8; N],
    count: usize,
}

impl<const N: usize> Model for Gathered<N> {
    ghost use Rattle.std.specs.Prelude.{◌≡◌, ◌≤◌, ℕ, List, length, take};

    ghost Value = { List ℕ };

    ghost view = { λ g. take g.count g.bytes };

    ghost invariant = { λ g. (g.count ≤ N) × (length g.bytes ≡ N) };
}

impl<const N: usize> Gathered<N> {
    pub(crate) fn new() -> Self
        ensures { result ≡ [] }
    {
        Gathered {
            bytes: [0; N],
            count: 0,
        }
    }

    pub(crate) fn as_slice(&self) -> &[u8]
        ensures { result.now ≡ self.now }
    {
        &self.bytes[..self.count]
    }

    // How many more bytes have room.
    pub(crate) fn room(&self) -> usize
        ensures { result + length self.now ≡ N }
    {
        N - self.count
    }

    pub(crate) fn clear(&mut self)
        ensures { self.new ≡ [] }
    {
        self.count = 0;
    }

    // As many bytes more as there is room for.
    pub(crate) fn hold(&mut self, part: &[u8])
        ensures all { self.new ≡ take N (self.old ++ part.now) }
        ensures front { take (length self.old) self.new ≡ self.old }
    {
        let room = self.room();
        self.append(first(part, room));
    }

    // More bytes behind those that are held.
    pub(crate) fn append(&mut self, part: &[u8])
        requires { length self.old + length part.now ≤ N }
        ensures { self.new ≡ self.old ++ part.now }
    {
        let from = self.count;
        let end = from + part.len();
        let bytes = &mut self.bytes[..];
        bytes[from..end].copy_from_slice(part);
        self.count = end;
    }
}

impl<const N: usize> fmt::Write for Gathered<N> {
    ghost write_str_gives = { λ held text after. after ≡ held ++ text };

    // All of the text, or nothing where it has no room.
    fn write_str(&mut self, text: &str) -> fmt::Result
        ensures ok { IsOk result → self.new ≡ self.old ++ text.now }
        ensures room { IsOk result ↔ (length self.old + length text.now ≤ N) }
        ensures err { OnErr result (self.new ≡ self.old) }
    {
        if text.len() > self.room() {
            return Err(fmt::Error);
        }
        self.append(text.as_bytes());
        Ok(())
    }
}
