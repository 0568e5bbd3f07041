// A short drill: what the program `drill` prints, put into lent bytes. What does not fit is left out.
#![tactic(auto)]

pub mod print; // the input and the whole print
mod line; // the line of a schedule
