// The register's work on frames, where the records stand.
ghost use Rattle.std.specs.Prelude.{◌≡◌};
ghost use Rattle.motors.specs.Found.{found_of};
ghost use Rattle.motors.specs.Edit.{applied};
ghost use Rattle.motors.specs.declared.edit.Edit.{Edit};
ghost use Rattle.motors.specs.Filing.{filing_of, enrolled, recorded, filed_of, struck_of};

use crate::places::{apply, look_up};
use motors::{Edit, Found, Motor};
use refusal::Refusal;

// How many motors are held after a frame that came in on a line; or rows 19, 1 to 6, 20 to 24.
pub fn receive(run: &mut [Motor], count: usize, line: u8, bundle: &[u8]) -> Result<usize, Refusal>
    ensures { (result ≡ (filed_of run.old count line bundle.now).answer) × (run.new ≡ (filed_of run.old count line bundle.now).motors) }
{
    let report = motors::read_report(line, bundle);
    if motors::shows_reading(report) {
        return file(run, count, report);
    }
    enrol(run, count, report)
}

// A motor that names itself.
// Stays: enrol, file and strike_out are thin functions of their own, a form that document 01 names; their body stands once, in `edited`.
#[tactic(auto, using(motors::proofs::InPlace::enrols))]
fn enrol(run: &mut [Motor], count: usize, report: Result<Motor, Refusal>) -> Result<usize, Refusal>
    ensures { (result ≡ (filing_of enrolled run.old count report).answer) × (run.new ≡ (filing_of enrolled run.old count report).motors) }
{
    edited(run, count, motors::subject(report), |found| {
        motors::to_enrol(found, count, report)
    })
}

// A motor with its reading.
#[tactic(auto, using(motors::proofs::InPlace::files))]
fn file(run: &mut [Motor], count: usize, report: Result<Motor, Refusal>) -> Result<usize, Refusal>
    ensures { (result ≡ (filing_of recorded run.old count report).answer) × (run.new ≡ (filing_of recorded run.old count report).motors) }
{
    edited(run, count, motors::subject(report), |found| {
        motors::to_file(found, count, report)
    })
}

// How many are held after a motor is struck out; or rows 19, 20, 25.
#[tactic(auto, using(motors::proofs::InPlace::strikes))]
pub fn strike_out(run: &mut [Motor], count: usize, line: u8, node: u32) -> Result<usize, Refusal>
    ensures { (result ≡ (struck_of run.old count line node).answer) × (run.new ≡ (struck_of run.old count line node).motors) }
{
    edited(run, count, motors::unread(line, node), |found| {
        motors::to_strike(found, count, line)
    })
}

// What a call decides on what is found of a motor is done to the places, and answered.
fn edited<F: FnOnce(Found) -> Edit>(
    run: &mut [Motor],
    count: usize,
    motor: Motor,
    decide: F,
) -> Result<usize, Refusal>
    requires { F.IsAlwaysCallable decide }
    ensures { (e : Edit) × F.post decide (found_of run.old count motor) e × (result ≡ e.answer) × (run.new ≡ applied run.old e) }
{
    let edit = decide(look_up(run, count, motor));
    apply(run, edit);
    edit.answer
}
