// The whole state of the board.
ghost use Rattle.std.specs.Prelude.{◌≡◌};
ghost use Rattle.board.specs.Node.{fresh, sound, with_drive, with_favourites, with_lock, with_label, status_of};

use crate::drive::Drive;
use crate::favourites::Favourites;
use crate::label::{blank_label, is_label};
use crate::lock::Lock;
use crate::settings::Settings;

// The fields are open, so that a state can be anything: every call checks it, by row 33.
#[derive(Clone, Copy)]
pub struct Node {
    pub settings: Settings,
    pub drive: Drive,
    pub favourites: Favourites,
    pub lock: Lock,
    pub label: [u8; 16],
}

impl Node {
    // Pulse 0, unlocked, all else empty, as after power-up.
    pub fn fresh(settings: Settings) -> Node
        ensures { result ≡ fresh settings }
    {
        Node {
            settings,
            drive: Drive::fresh(),
            favourites: Favourites::none(),
            lock: Lock::none(),
            label: blank_label(),
        }
    }

    // What row 33 asks of a state.
    pub fn is_sound(self) -> bool
        ensures { result ≡ sound self }
    {
        self.settings.in_range()
            && self.drive.within(self.settings.travel)
            && self.favourites.within(self.settings.travel)
            && self.lock.holder.0 <= 0xFF_FFFF
            && is_label(self.label)
    }

    // Stays: a number, since `status_of` of the contract is one, and `status_is_told` puts it on the wire.
    pub fn status(self) -> u8
        ensures { result ≡ status_of self }
    {
        if self.lock.locked {
            3
        } else if self.drive.blocked {
            2
        } else if self.drive.is_running() {
            1
        } else {
            0
        }
    }

    // Stays: four functions, each a fact of its own in promises/specs/Contracts, and no parameter can name a field.
    pub fn with_drive(mut self, drive: Drive) -> Node
        ensures { result ≡ with_drive self drive }
    {
        self.drive = drive;
        self
    }

    pub fn with_favourites(mut self, favourites: Favourites) -> Node
        ensures { result ≡ with_favourites self favourites }
    {
        self.favourites = favourites;
        self
    }

    pub fn with_lock(mut self, lock: Lock) -> Node
        ensures { result ≡ with_lock self lock }
    {
        self.lock = lock;
        self
    }

    pub fn with_label(mut self, label: [u8; 16]) -> Node
        ensures { result ≡ with_label self label }
    {
        self.label = label;
        self
    }
}
