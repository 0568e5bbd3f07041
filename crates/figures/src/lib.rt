// The figures of a drill before it is run: what is answered, what the figures are and what they mean, definitions in specs/, theorems in proofs/. The
// code is the crate `sizes`.
#![tactic(auto)]

// The log rows with which no begin is refused 7; the least and the most words that the operations move.
#[derive(Clone, Copy)]
pub struct Figures {
    pub rows: u32,
    pub least: u32,
    pub most: u32,
}

// Why there are none. Refused is question 1's no. Larger: more than 2,000 writes or reads. TooLong: more rows than 4,096.
#[derive(Clone, Copy, Debug, PartialEq, Eq)]
pub enum NoFigures {
    Refused,
    Larger,
    TooLong,
}
