// The kinds of DATA: their fields, as the numbers that they are on the wire, with the ranges of 002. A POST has its SET's.
ghost use Rattle.std.specs.Prelude.{◌≡◌};
ghost use Rattle.rts.specs.Fields.{position, step, mode, counts, frames, sun, contact};

use crate::field::Field;

// 80h. Order: 1 up or on, 2 down or off, 3 stop, 4 favourite.
#[derive(Clone, Copy, PartialEq, Eq)]
pub struct Position {
    pub channel: u8,
    pub order: u8,
}

// 81h and 82h. Direction: 0 plus, 1 minus.
#[derive(Clone, Copy, PartialEq, Eq)]
pub struct Step {
    pub channel: u8,
    pub direction: u8,
    pub value: u8,
}

// 90h and B0h. Ergonomics: 0 CE, 1 US; movement: 0 rolling, 1 tilting; modulis: 0 normal, 1 Modulis.
#[derive(Clone, Copy, PartialEq, Eq)]
pub struct Mode {
    pub channel: u8,
    pub ergonomics: u8,
    pub movement: u8,
    pub modulis: u8,
}

// 91h and B1h. How many RTS frames, in US mode and in CE mode.
#[derive(Clone, Copy, PartialEq, Eq)]
pub struct Counts {
    pub channel: u8,
    pub us: u8,
    pub ce: u8,
}

// 92h and B2h. How many RTS frames.
#[derive(Clone, Copy, PartialEq, Eq)]
pub struct Frames {
    pub channel: u8,
    pub count: u8,
}

// 93h. Off: 0 sun auto on, 1 off.
#[derive(Clone, Copy, PartialEq, Eq)]
pub struct Sun {
    pub channel: u8,
    pub off: u8,
}

// 94h. Input: 0 all, 1 to 5 that one; lock: 0 unlock, 1 lock.
#[derive(Clone, Copy, PartialEq, Eq)]
pub struct Contact {
    pub input: u8,
    pub lock: u8,
}

impl Position {
    pub(crate) fn fields(self) -> [Field; 2]
        ensures { result ≡ position self }
    {
        [
            Field::channel(self.channel),
            Field::within(self.order, 1..=4),
        ]
    }
}

impl Step {
    pub(crate) fn fields(self) -> [Field; 3]
        ensures { result ≡ step self }
    {
        [
            Field::channel(self.channel),
            Field::either(self.direction),
            Field::within(self.value, 1..=127),
        ]
    }
}

impl Mode {
    pub(crate) fn fields(self) -> [Field; 4]
        ensures { result ≡ mode self }
    {
        [
            Field::channel(self.channel),
            Field::either(self.ergonomics),
            Field::either(self.movement),
            Field::either(self.modulis),
        ]
    }
}

impl Counts {
    pub(crate) fn fields(self) -> [Field; 3]
        ensures { result ≡ counts self }
    {
        [
            Field::channel(self.channel),
            Field::within(self.us, 4..=255),
            Field::within(self.ce, 2..=13),
        ]
    }
}

impl Frames {
    pub(crate) fn fields(self) -> [Field; 2]
        ensures { result ≡ frames self }
    {
        [
            Field::channel(self.channel),
            Field::within(self.count, 4..=255),
        ]
    }
}

impl Sun {
    pub(crate) fn fields(self) -> [Field; 2]
        ensures { result ≡ sun self }
    {
        [Field::channel(self.channel), Field::either(self.off)]
    }
}

impl Contact {
    pub(crate) fn fields(self) -> [Field; 2]
        ensures { result ≡ contact self }
    {
        [Field::within(self.input, 0..=5), Field::either(self.lock)]
    }
}
