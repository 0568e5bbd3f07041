// Logs stored in strips: a byte for each row after row 0, naming its processor, and the rows by processor.
#![tactic(auto)]

mod count; // how often a byte stands, and where a processor's rows start
mod matching; // question 16
mod back; // the log, from its strips
mod out; // the strips, from a log
pub mod rows; // storing and restoring
