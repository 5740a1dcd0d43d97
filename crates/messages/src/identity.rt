// By what a board is known: its label, version and serial number.
ghost use Rattle.std.specs.Prelude.{◌≡◌};
ghost use Rattle.frame.specs.Layout.{data_of};
ghost use Rattle.messages.specs.Identity.{label_row, label_in, set_label_row, version_of, version_row, serial_row};

use crate::code::Code;
use crate::fields::shorter_than;
use crate::outcome::{Outcome, acts, posts, refuses};
use board::{Node, Plate, is_label};
use frame::data_byte;
use serial::serial_of;

// 45h, answered 65h: the label.
#[tactic(auto, unfolding(crate::specs::Identity::label_row), using(crate::proofs::FirstBytes::the_whole))]
pub(crate) fn post_label(node: Node) -> Outcome
    ensures { result ≡ label_row node }
{
    posts(node, 0x65, &node.label)
}

// 55h: the label.
#[tactic(auto, unfolding(crate::specs::Identity::set_label_row))]
pub(crate) fn set_label(node: Node, bundle: &[u8]) -> Outcome
    ensures { result ≡ set_label_row node (data_of bundle.now) }
{
    if shorter_than(bundle, 16) {
        return refuses(node, Code::TooLittleData);
    }
    let label = label_in(bundle);
    if !is_label(label) {
        return refuses(node, Code::OutOfRange);
    }
    acts(node.with_label(label), None)
}

// 74h, answered 75h: the version.
#[tactic(auto, unfolding(crate::specs::Identity::version_row))]
pub(crate) fn post_version(node: Node) -> Outcome
    ensures { result ≡ version_row node }
{
    posts(node, 0x75, &version_of(node.settings.plate))
}

// 4Ch, answered 6Ch: the serial number.
#[tactic(auto, unfolding(crate::specs::Identity::serial_row), using(crate::proofs::FirstBytes::the_whole))]
pub(crate) fn post_serial(node: Node) -> Outcome
    ensures { result ≡ serial_row node }
{
    let serial = serial_of(node.settings.id.0, node.settings.plate.origin);
    posts(node, 0x6C, &serial)
}

// The first sixteen bytes of DATA.
// Stays: tried as `array::from_fn`, and the proof did not close: the search fails at its sixteen elements.
fn label_in(bundle: &[u8]) -> [u8; 16]
    ensures { result ≡ label_in (data_of bundle.now) }
{
    let mut label = [0u8; 16];
    for place in 0..16 {
        label[place] = data_byte(bundle, place);
    }
    label
}

// Reference, letter, number, reserved.
fn version_of(plate: Plate) -> [u8; 6]
    ensures { result ≡ version_of plate }
{
    let [low, middle, high, _] = plate.reference.to_le_bytes();
    [low, middle, high, plate.letter, plate.number, 0xFF]
}
