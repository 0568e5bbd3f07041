// The course sheet of a log.
#![tactic(auto)]

pub mod rows; // the sheet of a log's rows
mod fill; // its figures, in one sweep over the rows
mod add; // what a row adds to them
