// The favourite positions: sixteen IPs, kept as pulses.
ghost use Rattle.std.specs.Prelude.{◌≡◌};
ghost use Rattle.board.specs.Favourites.{ip_at, with_ip, shared_out, shared_ip, reported_ip, ips_within, ip_within, is_at, no_favourites};

use travel::{IpIndex, Pulse, pulse_of_percent, share_of};

#[derive(Clone, Copy)]
pub struct Favourites {
    // IP 1 first; none where it is not set.
    pub slots: [Option<Pulse>; 16],
}

impl Favourites {
    pub fn none() -> Favourites
        ensures { result ≡ no_favourites }
    {
        Favourites { slots: [None; 16] }
    }

    // An IP by its number; none but 1 to 16 is ever set.
    pub fn ip_at(self, index: IpIndex) -> Option<Pulse>
        ensures { result ≡ ip_at self index }
    {
        if !(1..=16).contains(&index.0) {
            return None;
        }
        let place = usize::from(index.0) - 1;
        self.slots[place]
    }

    // One IP set or deleted; a number that is none of 1 to 16 changes nothing.
    pub fn with_ip(mut self, index: IpIndex, ip: Option<Pulse>) -> Favourites
        ensures { result ≡ with_ip self index ip }
    {
        if (1..=16).contains(&index.0) {
            self.slots[usize::from(index.0) - 1] = ip;
        }
        self
    }

    // SET_MOTOR_IP, function 4: IPs 1 to n share the travel, the rest become unset.
    // Stays: tried as `array::from_fn`, and the proof did not close: the search fails at its sixteen elements.
    #[tactic(auto, unfolding(crate::specs::Favourites::shared_to))]
    pub fn shared_out(n: u8, travel: Pulse) -> Favourites
        ensures { result ≡ shared_out n travel }
    {
        let mut slots = [None; 16];
        for place in 0..16 {
            slots[usize::from(place)] = shared_ip(IpIndex(place + 1), n, travel);
        }
        Favourites { slots }
    }

    // The number of the first IP whose pulse equals the position, else FFh.
    #[tactic(auto, unfolding(crate::specs::Favourites::first_at))]
    pub fn reported_ip(self, position: Pulse) -> u8
        ensures { result ≡ reported_ip self position }
    {
        let mut number: u8 = 0;
        // Stays: document 01 names this form, a loop that breaks with the index; FFh is the contract's number.
        let found = loop {
            if number == 16 {
                break 0xFF;
            }
            let ip = self.slots[usize::from(number)];
            number += 1;
            if is_at(ip, position) {
                break number;
            }
        };
        found
    }

    // No IP lies beyond the travel.
    // Stays: `all` would stop at the first beyond; without that exit it is vector instructions (docs/SPEED.md).
    pub fn within(self, travel: Pulse) -> bool
        ensures { result ≡ ips_within travel self.slots }
    {
        self.slots
            .iter()
            .fold(true, |within, ip| within & ip_within(*ip, travel))
    }
}

fn shared_ip(index: IpIndex, n: u8, travel: Pulse) -> Option<Pulse>
    ensures { result ≡ shared_ip n travel index }
{
    if index.0 <= n {
        return Some(pulse_of_percent(share_of(index, n), travel));
    }
    None
}

fn is_at(ip: Option<Pulse>, position: Pulse) -> bool
    ensures { result ≡ is_at ip position }
{
    ip == Some(position)
}

fn ip_within(ip: Option<Pulse>, travel: Pulse) -> bool
    ensures { result ≡ ip_within travel ip }
{
    ip.is_none_or(|pulse| pulse <= travel)
}
