// The writer, by value.
#![tactic(auto)]

pub mod tickets; // sets of tickets
pub mod state; // a fresh writer, a begun one, its tickets, and question 4
