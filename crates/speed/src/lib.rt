// What tests/speed measures, for C to call: each function goes once through a lent workload, and gives a number that the second program's
// code has to give as well.
#![tactic(auto)]

mod bundles;
mod filings;
mod recording;
mod slots;
mod transmitter;
mod turns;
mod worth;
