// The judge: reads a log, and writes the order of its operations that explains every read, or refuses it.
#![tactic(auto)]

pub mod row; // what a row of the log says
pub mod formed; // question 10: are the rows well formed?
pub mod sweep; // question 12: has every read a write to stand behind?
mod order; // the order, into lent places
pub mod rows; // the judge of rows
pub mod bytes; // the judge of a log as bytes
