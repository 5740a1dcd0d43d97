// The sizes of form 1, and where its parts stand.
ghost use Rattle.std.specs.Prelude.{◌≡◌, ◌≤◌};
ghost use Rattle.motors.specs.Register.{places};
ghost use Rattle.form.specs.Layout.{form_length, entry_place, body_place};
ghost use Rattle.form.specs.FormOne.{form_one};

// The first byte of form 1.
pub(crate) const FIRST: u8 = 1;

// The first byte and the count.
pub(crate) const HEAD: usize = 3;

// Line, NodeID, place of the body.
pub(crate) const ENTRY: usize = 6;

// 1, pulse, percent, IP.
pub(crate) const BODY: usize = 5;

pub(crate) fn form_length(count: usize) -> usize
    requires { count ≤ places }
    ensures { result ≡ form_length form_one count }
{
    HEAD + (ENTRY + BODY) * count
}

// Entries stand behind the head.
pub(crate) fn entry_place(at: usize) -> usize
    requires { at ≤ places }
    ensures { result ≡ entry_place at }
{
    HEAD + ENTRY * at
}

// Bodies stand behind the last entry.
pub(crate) fn body_place(count: usize, at: usize) -> usize
    requires { (count ≤ places) × (at ≤ places) }
    ensures { result ≡ body_place form_one count at }
{
    entry_place(count) + BODY * at
}
