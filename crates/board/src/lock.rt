// The network lock.
ghost use Rattle.std.specs.Prelude.{◌≡◌};
ghost use Rattle.board.specs.Lock.{no_lock, admits, locked, unlocked, saving, over_power_up};

use frame::Address;

#[derive(Clone, Copy)]
pub struct Lock {
    // SOURCE of the lock in force.
    // Stays: row 33 takes any holder and priority of an unlocked node too, and 36h tells them (`the_lock_is_told`).
    pub holder: Address,
    pub locked: bool,
    pub priority: u8,
    // The lock survives power-up.
    pub saved: bool,
}

impl Lock {
    pub fn none() -> Lock
        ensures { result ≡ no_lock }
    {
        Lock {
            locked: false,
            holder: Address(0),
            priority: 0,
            saved: false,
        }
    }

    // To lock or unlock takes a priority at least the holder's, if locked.
    pub fn admits(self, priority: u8) -> bool
        ensures { result ≡ admits self priority }
    {
        !self.locked || priority >= self.priority
    }

    pub fn locked(self, source: Address, priority: u8) -> Lock
        ensures { result ≡ locked self source priority }
    {
        Lock {
            locked: true,
            holder: source,
            priority,
            ..self
        }
    }

    pub fn unlocked(self) -> Lock
        ensures { result ≡ unlocked self }
    {
        Lock {
            locked: false,
            holder: Address(0),
            priority: 0,
            ..self
        }
    }

    pub fn saving(self, saved: bool) -> Lock
        ensures { result ≡ saving self saved }
    {
        Lock { saved, ..self }
    }

    // Dropped and zeroed unless saved.
    pub fn over_power_up(self) -> Lock
        ensures { result ≡ over_power_up self }
    {
        if self.saved { self } else { Lock::none() }
    }
}
