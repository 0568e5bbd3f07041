// The counted register's own leaves, by value: the larger of two cells by stamp, the cells' places, and question 4 of its writer and readers.
#![tactic(auto)]

pub mod word; // the larger of two cells by stamp
pub mod places; // where each cell stands in the table
pub mod writing; // question 4 of the writer, and whether a stamp is left for it
pub mod reading; // question 4 of one reader
