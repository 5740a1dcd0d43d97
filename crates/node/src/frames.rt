// One bundle in; the node, a change of the group table and a reply out.
ghost use Rattle.std.specs.Prelude.{◌≡◌};
ghost use Rattle.frame.specs.Reading.{reading_of};
ghost use Rattle.node.specs.Frames.{turn_by, turn_of};

use crate::meant::is_meant;
use crate::reply::answered;
use crate::turn::{Turn, refused, silent};
use board::Node;
use messages::outcome_of;
use refusal::Refusal;

// Row 33, then the bundle.
#[tactic(auto, unfolding(crate::specs::Frames::turn_of))]
pub fn on_frame(node: Node, groups: [[u8; 3]; 16], bundle: &[u8]) -> Turn
    ensures { result ≡ turn_of node groups bundle.now }
{
    if !node.is_sound() {
        return refused(node, Refusal::BrokenNode);
    }
    taken(node, groups, bundle)
}

// Rows 1 to 6, then the message, if it is meant for this node.
#[tactic(auto, using(messages::proofs::Contents::at_most_20_bytes))]
fn taken(node: Node, groups: [[u8; 3]; 16], bundle: &[u8]) -> Turn
    ensures { result ≡ turn_by node groups bundle.now (reading_of bundle.now) }
{
    let request = match frame::read(bundle) {
        Ok((request, _)) => request,
        Err(refusal) => return refused(node, refusal),
    };
    if !is_meant(node.settings, groups, request) {
        return silent(node, None);
    }
    let outcome = outcome_of(node, groups, request.source, request.message, bundle);
    answered(node.settings, request, outcome)
}
