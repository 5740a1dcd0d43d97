// The register's commands, and its rows.
#![tactic(auto)]

ghost use Rattle.std.specs.Prelude.{◌≡◌, length, take, Some, IsErr};
ghost use Rattle.motors.specs.declared.answer.Next.{Next};
ghost use Rattle.register_room.specs.Told.{told};

use console::{Id, RegisterCommand, Rows, Said, first};
use frame::Address;
use motors::{Motor, PLACES};
use refusal::Refusal;
use std::fmt;

// The register on the bench.
// Stays: motors with their count, the form of the register that C lends.
#[derive(Clone, Copy)]
pub struct RegisterRoom {
    pub motors: [Motor; PLACES],
    pub count: usize,
}

impl RegisterRoom {
    // A fresh start has an empty register.
    pub fn new() -> RegisterRoom
        ensures { result.count ≡ 0 }
    {
        RegisterRoom {
            motors: [motors::unread(0, 0); PLACES],
            count: 0,
        }
    }

    #[tactic(auto, unfolding(crate::specs::Told::told))]
    pub fn obey(&mut self, command: RegisterCommand<'_>, rows: &mut Rows)
        ensures motors { command.entry ≡ RegisterCommand.Motors → self.new ≡ self.old }
        ensures store { command.entry ≡ RegisterCommand.Store → self.new ≡ self.old }
        ensures refused { (next : Next) → told self.old.motors self.old.count command.entry ≡ Some next → IsErr next.answer → self.new.count ≡ self.old.count }
        ensures rows { take (length rows.old) rows.new ≡ rows.old }
    {
        let count = self.count;
        match command {
            RegisterCommand::Line { line, bundle } => {
                let answer = register::receive(&mut self.motors, count, line, bundle);
                rows.put(self.after(answer));
            }
            RegisterCommand::Strike { line, id } => {
                let answer = register::strike_out(&mut self.motors, count, line, id.0);
                rows.put(self.after(answer));
            }
            RegisterCommand::Load(form) => {
                let answer = register::read_form(&mut self.motors, form);
                rows.put(self.after(answer));
            }
            RegisterCommand::Motors => rows.put(MotorRows(self.held())),
            RegisterCommand::Store => self.put_form(rows),
        }
    }

    // A refusal leaves the count.
    fn after(&mut self, answer: Result<usize, Refusal>) -> Said<'static>
        ensures { IsErr answer → self.new ≡ self.old }
    {
        match answer {
            Ok(count) => {
                self.count = count;
                Said::Done
            }
            Err(refusal) => Said::Refused(refusal),
        }
    }

    fn held(&self) -> &[Motor] {
        let motors = self.motors.as_slice();
        motors.get(..self.count).unwrap_or(motors)
    }

    fn put_form(&self, rows: &mut Rows)
        ensures { take (length rows.old) rows.new ≡ rows.old }
    {
        let mut buffer = [0; 4096];
        match register::write_form(&self.motors, self.count, &mut buffer) {
            Ok(length) => rows.put(Said::Form(first(&buffer, length))),
            Err(refusal) => rows.put(Said::Refused(refusal)),
        }
    }
}

// One row, and then one for each motor.
#[derive(Clone, Copy)]
struct MotorRows<'a>(&'a [Motor]);

impl fmt::Display for MotorRows<'_> {
    fn fmt<W: fmt::Write>(&self, f: &mut fmt::Formatter<W>) -> fmt::Result {
        let count = self.0.len();
        write!(f, "motors {count}")?;
        for motor in self.0 {
            write!(f, "\n{}", MotorRow(*motor))?;
        }
        Ok(())
    }
}

#[derive(Clone, Copy)]
struct MotorRow(Motor);

impl fmt::Display for MotorRow {
    fn fmt<W: fmt::Write>(&self, f: &mut fmt::Formatter<W>) -> fmt::Result {
        let motor = self.0;
        let line = motor.line;
        let node = Id(Address(motor.node));
        if motor.mark == 0 {
            return write!(f, "{line} {node} -");
        }
        let pulse = motor.pulse;
        let percent = motor.percent;
        let ip = motor.ip;
        write!(f, "{line} {node} {pulse} {percent} {ip:02X}")
    }
}
