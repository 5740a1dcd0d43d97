// A workload of bundles: a slot of 32 bytes for each, its length and then its bytes. Where 32 is added to the length,
// the slot's last two bytes name a pulse, low byte first.

pub(crate) const SLOT: usize = 32;

pub(crate) type Slot = [u8; SLOT];

// A slot has room for 31 bytes.
pub(crate) fn bundle(slot: &Slot) -> &[u8] {
    let count = usize::from(slot[0] % 32);
    &slot[1..1 + count]
}

pub(crate) fn names_pulse(slot: &Slot) -> bool {
    slot[0] >= 32
}

pub(crate) fn pulse(slot: &Slot) -> u16 {
    frame::word(slot[30], slot[31])
}
