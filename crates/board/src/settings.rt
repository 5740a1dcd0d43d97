// What the fitter sets up.
ghost use Rattle.std.specs.Prelude.{◌≡◌};
ghost use Rattle.board.specs.Settings.{in_range};

use crate::plate::Plate;
use frame::Address;
use travel::Pulse;

#[derive(Clone, Copy)]
pub struct Settings {
    // The NodeID.
    pub id: Address,
    // The node type.
    pub kind: u8,
    // The pulse of the down limit.
    pub travel: Pulse,
    pub plate: Plate,
}

impl Settings {
    // Row 32's ranges.
    pub fn in_range(self) -> bool
        ensures { result ≡ in_range self }
    {
        self.id.is_node_id()
            && matches!(self.kind, 1..=15)
            && self.travel.0 >= 100
            && self.plate.in_range()
    }
}
