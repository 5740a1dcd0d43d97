// What an answer counts in a sum that C has to come to as well.
use crate::slots::{SLOT, bundle};
use refusal::Refusal;

// The sum over a workload, bundle by bundle.
pub(crate) fn total_worth<F: FnMut(&[u8]) -> Result<usize, Refusal>>(
    slots: &[u8],
    mut answered: F,
) -> u64
    requires { F.IsAlwaysCallable answered }
{
    let (slots, _) = slots.as_chunks::<SLOT>();
    let mut total: u64 = 0;
    for slot in slots {
        total = total.wrapping_add(worth(answered(bundle(slot)), 0));
    }
    total
}

// The place or the length that was answered, or the refusal's number behind a base.
pub(crate) fn worth(answer: Result<usize, Refusal>, base: u16) -> u64 {
    match answer {
        Ok(place) => place as u64,
        Err(refusal) => u64::from(base) + u64::from(refusal.number()),
    }
}
