// The motor: where it stands, whether it runs, and why it last started or stopped.
ghost use Rattle.std.specs.Prelude.{◌≡◌};
ghost use Rattle.board.specs.Drive.{fresh_drive, moved_to, halted, at_pulse, blocked_by, unblocked, powered_up, drive_within, reached, is_running};

use travel::Pulse;

#[derive(Clone, Copy)]
pub struct Drive {
    pub position: Pulse,
    // The pulse that it runs to, none where it stands: a target is held only while running.
    pub motion: Option<Pulse>,
    // The last movement's: 0 down, 1 up, FFh unknown.
    // Stays: this and the two below are bytes: row 33 lets any pass (`Typed`), and 0Fh tells them (`status_is_told`).
    pub direction: u8,
    pub source: u8,
    pub cause: u8,
    pub blocked: bool,
}

impl Drive {
    // At the up limit, as after power-up.
    pub fn fresh() -> Drive
        ensures { result ≡ fresh_drive }
    {
        Drive {
            position: Pulse(0),
            motion: None,
            direction: 0xFF,
            source: 0,
            cause: 0xFF,
            blocked: false,
        }
    }

    // MOVETO, once its target is known.
    pub fn moved_to(self, target: Pulse) -> Drive
        ensures { result ≡ moved_to self target }
    {
        if self.position == target {
            return Drive {
                motion: None,
                source: 0,
                cause: 0,
                ..self
            };
        }
        let direction = if self.position < target { 0 } else { 1 };
        Drive {
            motion: Some(target),
            direction,
            source: 1,
            cause: 1,
            ..self
        }
    }

    // STOP.
    pub fn halted(self) -> Drive
        ensures { result ≡ halted self }
    {
        if self.motion.is_none() {
            return self;
        }
        Drive {
            motion: None,
            source: 1,
            cause: 1,
            ..self
        }
    }

    // The motor has come to a pulse, and stops there if it has reached its target.
    pub fn at_pulse(mut self, pulse: Pulse) -> Drive
        ensures { result ≡ at_pulse self pulse }
    {
        if reached(self.motion, self.direction, pulse) {
            self.motion = None;
            self.source = 0;
            self.cause = 0;
        }
        self.position = pulse;
        self
    }

    pub fn blocked_by(self, cause: u8) -> Drive
        ensures { result ≡ blocked_by self cause }
    {
        Drive {
            motion: None,
            source: 0,
            cause,
            blocked: true,
            ..self
        }
    }

    pub fn unblocked(mut self) -> Drive
        ensures { result ≡ unblocked self }
    {
        self.blocked = false;
        self
    }

    pub fn powered_up(self) -> Drive
        ensures { result ≡ powered_up self }
    {
        Drive {
            motion: None,
            direction: 0xFF,
            source: 0,
            cause: 0xFF,
            blocked: false,
            ..self
        }
    }

    pub fn is_running(self) -> bool
        ensures { result ≡ is_running self.motion }
    {
        self.motion.is_some()
    }

    // Neither the position nor a target lies beyond the travel.
    pub fn within(self, travel: Pulse) -> bool
        ensures { result ≡ drive_within travel self }
    {
        self.position <= travel && self.motion.is_none_or(|target| target <= travel)
    }
}

// A pulse at the target of a running motor or past it, in the direction of the movement.
fn reached(motion: Option<Pulse>, direction: u8, pulse: Pulse) -> bool
    ensures { result ≡ reached motion direction pulse }
{
    let Some(target) = motion else { return false };
    if direction == 1 {
        pulse <= target
    } else {
        pulse >= target
    }
}
