// A board that is set up, and the row of `state`: the motor, the lock, sixteen IPs, sixteen groups, the label.
use board::{Drive, Favourites, Lock, Node};
use console::{Hex, Id, OrNone};
use frame::Address;
use std::fmt;
use travel::Pulse;

// The board's state, and its group table.
#[derive(Clone, Copy)]
pub struct Awning {
    pub node: Node,
    // Stays: `node::on_frame` and `board::apply` take the table by value.
    pub groups: [[u8; 3]; 16],
}

impl fmt::Display for Awning {
    fn fmt<W: fmt::Write>(&self, f: &mut fmt::Formatter<W>) -> fmt::Result {
        let node = self.node;
        let motor = MotorPart(node.drive);
        let lock = LockPart(node.lock);
        let ips = IpsPart(node.favourites);
        let groups = GroupsPart(self.groups);
        let label = LabelPart(node.label);
        write!(f, "{motor} {lock} ips{ips}")?;
        write!(f, " groups{groups} label {label}")
    }
}

#[derive(Clone, Copy)]
struct MotorPart(Drive);

impl fmt::Display for MotorPart {
    fn fmt<W: fmt::Write>(&self, f: &mut fmt::Formatter<W>) -> fmt::Result {
        let drive = self.0;
        let pulse = drive.position.0;
        let target = OrNone(number_of(drive.motion));
        let direction = drive.direction;
        let source = drive.source;
        let cause = drive.cause;
        let blocked = u8::from(drive.blocked);
        write!(
            f,
            "pulse {pulse} target {target} direction {direction:02X} "
        )?;
        write!(f, "source {source:02X} cause {cause:02X} blocked {blocked}")
    }
}

fn number_of(pulse: Option<Pulse>) -> Option<u16> {
    pulse.map(|pulse| pulse.0)
}

#[derive(Clone, Copy)]
struct LockPart(Lock);

impl fmt::Display for LockPart {
    fn fmt<W: fmt::Write>(&self, f: &mut fmt::Formatter<W>) -> fmt::Result {
        let lock = self.0;
        let locked = u8::from(lock.locked);
        let holder = Id(lock.holder);
        let priority = lock.priority;
        let saved = u8::from(lock.saved);
        write!(f, "lock {locked} {holder} {priority:02X} saved {saved}")
    }
}

#[derive(Clone, Copy)]
struct IpsPart(Favourites);

impl fmt::Display for IpsPart {
    fn fmt<W: fmt::Write>(&self, f: &mut fmt::Formatter<W>) -> fmt::Result {
        for ip in &self.0.slots {
            write!(f, " {}", OrNone(number_of(*ip)))?;
        }
        Ok(())
    }
}

#[derive(Clone, Copy)]
struct GroupsPart([[u8; 3]; 16]);

impl fmt::Display for GroupsPart {
    fn fmt<W: fmt::Write>(&self, f: &mut fmt::Formatter<W>) -> fmt::Result {
        for [low, middle, high] in &self.0 {
            write!(f, " {}", Id(Address::from_bytes(*low, *middle, *high)))?;
        }
        Ok(())
    }
}

#[derive(Clone, Copy)]
struct LabelPart([u8; 16]);

impl fmt::Display for LabelPart {
    fn fmt<W: fmt::Write>(&self, f: &mut fmt::Formatter<W>) -> fmt::Result {
        write!(f, "{}", Hex(&self.0))
    }
}
