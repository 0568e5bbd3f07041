// The course sheet: for each reader how many of its reads have ended, and by how many writes they lag. What a lag is and what a sheet means are
// definitions in specs/. The code is the crate `sheets`.
#![tactic(auto)]

// How many reads have ended, and by how many writes they lag: of one reader, or of all.
#[derive(Clone, Copy)]
pub struct Line {
    pub reads: usize,
    pub lags: usize,
}

// The number of readers; for each processor its line, of which the writer's is 0 and 0; and the readers' lines, added.
#[derive(Clone, Copy)]
pub struct Figures {
    pub readers: usize,
    pub lines: [Line; 17],
    pub total: Line,
}
