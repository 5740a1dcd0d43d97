// The reader is a value that each step takes in and hands back.
ghost use Rattle.std.specs.Prelude.{◌≡◌, true, ◌≢◌, ◌⊎◌, ℕ, ◌+◌, ◌-◌, ◌≤◌, ◌<◌, leb, length, get_or, drop};
ghost use Rattle.std.specs.List.{position};
ghost use mathlib.Core.List.{foldl};
ghost use Rattle.line.specs.Reader.{reader, joined, stepped, no_bytes, fresh, begun, is_sound, kept_after, count_after, ended_with, step_of, close_of, refusing, run_of, ran_of};

use crate::beyond::are_zeros;
use frame::{Header, read};
use refusal::Refusal;

// Stays: a count beside its bytes, and 32 for too long, since the memory is fixed and row 9 judges any state that a host hands in.
#[derive(Clone, Copy)]
pub struct Reader {
    // The bundle's first bytes, at most 31, then zeros.
    pub kept: [u8; 31],
    // How many bytes the open bundle has; 32 stands for too long.
    pub count: usize,
}

#[derive(Clone, Copy)]
pub struct Stepped {
    pub reader: Reader,
    // None where no bundle has ended; the header of a frame that has, and how many bytes of DATA it has; the refusal of a
    // bundle that is none, or row 7, 8 or 9.
    pub answer: Result<Option<(Header, usize)>, Refusal>,
    // The frame's bytes, then zeros; all zeros where the answer is no frame.
    // Stays: beside the answer, since `NoBytesWithoutAFrame` of promises speaks of it where no frame has ended.
    pub bundle: [u8; 31],
}

#[derive(Clone, Copy)]
pub struct Ran {
    pub stepped: Stepped,
    // Up to here the runs are read.
    pub place: usize,
}

// A silence of this many tenths of a millisecond ends the bundle before it.
const ENDING: u16 = 30;

impl Reader {
    // No bundle is open.
    pub fn fresh() -> Reader
        ensures { result ≡ fresh }
    {
        Reader {
            kept: [0; 31],
            count: 0,
        }
    }

    // A byte, with the silence before it.
    pub fn step(self, byte: u8, silence: u16) -> Stepped
        ensures { result ≡ step_of self byte silence }
    {
        if !self.is_sound() {
            return self.answering(Err(Refusal::BrokenReader));
        }
        if silence >= ENDING {
            return self.ended(Reader::begun(byte));
        }
        let mut kept = self.kept;
        let count = lay_in(&mut kept, self.count, byte);
        let reader = Reader { kept, count };
        reader.answering(Ok(None))
    }

    // The end of the recording.
    pub fn close(self) -> Stepped
        ensures { result ≡ close_of self }
    {
        if !self.is_sound() {
            return self.answering(Err(Refusal::BrokenReader));
        }
        self.ended(Reader::fresh())
    }

    // The same over two lent runs, from a place on: it stops after the byte that ends a bundle, or at the end.
    pub fn run(self, bytes: &[u8], silences: &[u16], place: usize) -> Ran
        ensures { result ≡ ran_of self bytes.now silences.now place }
    {
        if !self.is_sound() {
            return self.refusing(Refusal::BrokenReader, place);
        }
        if bytes.len() != silences.len() {
            return self.refusing(Refusal::UnequalRuns, place);
        }
        if place > bytes.len() {
            return self.refusing(Refusal::PlacePastEnd, place);
        }
        self.go_on(bytes, silences, place)
    }

    // The runs are not read, and the reader stays as it is.
    fn refusing(self, refusal: Refusal, place: usize) -> Ran
        ensures { result ≡ refusing self refusal place }
    {
        let stepped = self.answering(Err(refusal));
        Ran { stepped, place }
    }

    // A sound reader stays sound, so row 9 is checked once, and all the bytes up to the one that ends the bundle are laid among the kept at once.
    fn go_on(self, bytes: &[u8], silences: &[u16], place: usize) -> Ran
        requires { (is_sound self ≡ true) × (length bytes.now ≡ length silences.now) × (place ≤ length bytes.now) }
        ensures { result ≡ run_of self (drop place bytes.now) (drop place silences.now) place }
    {
        let from = first_to_end_it(self.count, place, silences.len());
        let end = bundle_end(silences, from);
        let mut kept = self.kept;
        let count = lay_all(&mut kept, self.count, &bytes[place..end]);
        let open = Reader { kept, count };
        if end < bytes.len() {
            let stepped = open.ended(Reader::begun(bytes[end]));
            return Ran {
                stepped,
                place: end + 1,
            };
        }
        let stepped = open.answering(Ok(None));
        Ran {
            stepped,
            place: end,
        }
    }

    // The open bundle ends, and the reader goes on as `next`.
    fn ended(self, next: Reader) -> Stepped
        ensures { result ≡ ended_with self next }
    {
        match self.judged() {
            Ok(None) => next.answering(Ok(None)),
            Ok(Some(frame)) => {
                let kept = self.kept;
                Stepped {
                    reader: next,
                    answer: Ok(Some(frame)),
                    bundle: kept,
                }
            }
            Err(refusal) => next.answering(Err(refusal)),
        }
    }

    // What the open bundle is answered by when it ends.
    fn judged(self) -> Result<Option<(Header, usize)>, Refusal>
        ensures { result ≡ (ended_with self fresh).answer }
    {
        let kept = self.kept;
        let count = self.count;
        if count == 0 {
            return Ok(None);
        }
        if count > 31 {
            return Err(Refusal::TooLong);
        }
        // Stays: two arms, where a question mark would do: the reader that refuses everything changes one, the one that
        // passes all the other, and every function is still proved with each.
        match read(&kept[..count]) {
            Ok(frame) => Ok(Some(frame)),
            Err(refusal) => Err(refusal),
        }
    }

    // An answer that is no frame has no bytes beside it.
    fn answering(self, answer: Result<Option<(Header, usize)>, Refusal>) -> Stepped
        ensures { result ≡ stepped self answer no_bytes }
    {
        Stepped {
            reader: self,
            answer,
            bundle: [0; 31],
        }
    }

    // The reader that has this byte as its bundle's first.
    fn begun(byte: u8) -> Reader
        ensures { result ≡ begun byte }
    {
        let mut kept = [0u8; 31];
        kept[0] = byte;
        Reader { kept, count: 1 }
    }

    // Row 9: at most 32 bytes counted, and zeros beyond them.
    fn is_sound(self) -> bool
        ensures { result ≡ is_sound self }
    {
        self.count <= 32 && are_zeros(&self.kept, self.count)
    }
}

// A byte joins the open bundle: it is kept while there is room, and the bundle is too long from the 32nd on.
// Stays: beside `lay_all`, since a step has one byte, and its contract names `count_after` and `kept_after`.
fn lay_in(kept: &mut [u8; 31], count: usize, byte: u8) -> usize
    ensures { (result ≡ count_after count) × (kept.new ≡ kept_after kept.old count byte) }
{
    if count < 31 {
        kept[count] = byte;
        count + 1
    } else {
        32
    }
}

// An empty bundle takes its first byte whatever the silence before it.
fn first_to_end_it(count: usize, place: usize, end: usize) -> usize
    requires { place ≤ end }
    ensures forward { place ≤ result }
    ensures within { result ≤ end }
    ensures first { ((result ≡ place) × ((count ≢ 0) ⊎ (place ≡ end))) ⊎ ((result ≡ place + 1) × (count ≡ 0)) }
{
    if count == 0 && place < end {
        place + 1
    } else {
        place
    }
}

// The first silence from here on that ends a bundle, or the end of them all: eight at a time, which the compiler writes out.
fn bundle_end(silences: &[u16], from: usize) -> usize
    requires { from ≤ length silences.now }
    ensures forward { from ≤ result }
    ensures within { result ≤ length silences.now }
    ensures quiet { (k : ℕ) → from ≤ k → k < result → get_or silences.now k 0 < 30 }
    ensures loud { result < length silences.now → 30 ≤ get_or silences.now result 0 }
{
    let rest = &silences[from..];
    let (eights, last) = rest.as_chunks::<8>();
    for (passed, eight) in eights.iter().enumerate() {
        if let Some(found) = first_ending(eight) {
            return from + passed * 8 + found;
        }
    }
    match first_ending(last) {
        Some(found) => from + eights.len() * 8 + found,
        None => silences.len(),
    }
}

// The first silence that ends a bundle.
fn first_ending(silences: &[u16]) -> Option<usize>
    ensures { result ≡ position (leb 30) silences.now }
{
    silences.iter().position(|silence| *silence >= ENDING)
}

// The bytes of a part join the open bundle, those for which there is room.
fn lay_all(kept: &mut [u8; 31], count: usize, part: &[u8]) -> usize
    ensures { reader kept.new result ≡ foldl joined (reader kept.old count) part.now }
{
    let place = count.min(31);
    let laid = part.len().min(31 - place);
    kept[place..place + laid].copy_from_slice(&part[..laid]);
    if laid < part.len() { 32 } else { count + laid }
}
