// The register of motors as a host holds it: a lent run of motor records with a count. Each function is thin and works where the records stand.
// Stays: the run with its count beside it, in every function here: C lends it so, "a lent run of motor records with a count" (document 01).
#![tactic(auto)]

mod by_value;
mod forms;
mod places;
mod run;

pub use by_value::{received, restored, stored, struck_out};
pub use forms::{read_form, write_form};
pub use run::{receive, strike_out};
