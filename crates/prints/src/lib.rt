// What the programs print, put into lent bytes. What does not fit is left out.
#![tactic(auto)]

pub mod verdict; // the line of the judge's verdict
pub mod sheet; // the course sheet
pub mod bench; // the bench's print
mod log; // the listing and the order of a log
mod refusals; // the refused calls
