// Both registers: set-up, begins, sub-steps and retirements over a state by value, a lent table and a lent log.
#![tactic(auto)]

mod rows; // the log's rows
pub mod calls; // begins, sub-steps and retirements
pub mod set_up; // set-up
