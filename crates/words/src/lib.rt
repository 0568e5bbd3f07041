// The words of the table and of the log: stamps, cells, rows, and the places of cells in the table.
#![tactic(auto)]

pub mod stamp; // a pair of tickets
pub mod cell; // a cell of the table as 64 bits
pub mod row; // a row of the log as 64 bits
pub mod index; // where each cell stands in the table
