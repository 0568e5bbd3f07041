// Document 01's sessions marked P, as one table that one fact covers: see specs/ for the table, proofs/ for the fact. And what
// one of its logs shows of report CS-R8704's definition.
#![tactic(auto)]
