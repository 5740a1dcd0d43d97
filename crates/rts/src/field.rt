// A field of DATA and its range (002).
ghost use Rattle.std.specs.Prelude.{◌≡◌};
ghost use Rattle.std.specs.Range.{range_inclusive_start, range_inclusive_end};
ghost use Rattle.rts.specs.Range.{◌to◌, even_to, ◌takes◌};
ghost use Rattle.rts.specs.Fields.{◌within◌, channels, either, fits};

use std::ops::RangeInclusive;

// From the lowest number to the highest.
// Stays: `even_to` and `◌takes◌` of the table are of a range of even numbers alone, which the library has not.
#[derive(Clone, Copy)]
pub(crate) struct Range {
    pub(crate) low: u8,
    pub(crate) high: u8,
    // Even numbers alone: bit 0 is 0.
    pub(crate) even: bool,
}

impl Range {
    fn takes(self, number: u8) -> bool
        ensures { result ≡ (self takes number).holds }
    {
        (self.low..=self.high).contains(&number) && (!self.even || number % 2 == 0)
    }
}

#[derive(Clone, Copy)]
pub(crate) struct Field {
    pub(crate) value: u8,
    pub(crate) range: Range,
}

impl Field {
    pub(crate) fn within(value: u8, numbers: RangeInclusive<u8>) -> Field
        ensures { result ≡ value within (range_inclusive_start numbers to range_inclusive_end numbers) }
    {
        let (low, high) = numbers.into_inner();
        let range = Range {
            low,
            high,
            even: false,
        };
        Field { value, range }
    }

    pub(crate) fn channel(value: u8) -> Field
        ensures { result ≡ value within channels }
    {
        Field::within(value, 0..=15)
    }

    // One of two, 0 or 1.
    pub(crate) fn either(value: u8) -> Field
        ensures { result ≡ value within either }
    {
        Field::within(value, 0..=1)
    }

    // The inputs that are locked, bits 1 to 5.
    pub(crate) fn inputs(value: u8) -> Field
        ensures { result ≡ value within even_to 0x3E }
    {
        let range = Range {
            low: 0,
            high: 0x3E,
            even: true,
        };
        Field { value, range }
    }

    pub(crate) fn fits(self) -> bool
        ensures { result ≡ (fits self).holds }
    {
        self.range.takes(self.value)
    }
}
