// The questions that every call begins with, of either register.
#![tactic(auto)]

pub mod range; // question 4
pub mod asked; // questions 4, 5 and 13 of a call by a processor
