// What a row adds to the figures.
ghost use Rattle.std.specs.Prelude.{◌≡◌, ℕ, ◌-◌, ◌<◌, ◌≤◌, ◌^◌, max, eqb, length};
ghost use Rattle.words.specs.Choice.{pick};
ghost use Rattle.history.specs.Rows.{kind_of};
ghost use Rattle.lags.specs.Lag.{with_write, rank_of};
ghost use Rattle.lags.specs.Sheet.{over_readers, line_at};

use judge::row::{PROCESSORS, kind};
use lags::Line;

// One more, if the row begins a write.
pub(crate) fn with_write(row: u64, n: usize) -> usize
    requires { n < 2 ^ 63 }
    ensures { result ≡ with_write row n }
{
    if kind(row) == 1 { n + 1 } else { n }
}

// The rank of row q, counted on from that of row f; that of row f itself, if it is behind q.
pub(crate) fn rank_from(rows: &[u64], f: usize, rank: usize, q: usize) -> usize
    requires { (q < length rows.now) × (rank ≡ rank_of rows.now f) }
    ensures { result ≡ rank_of rows.now (max f q) }
{
    let mut n = rank;
    // By index: f may lie behind q.
    for j in f..q {
        n = with_write(rows[j + 1], n);
    }
    n
}

// 1, if the row ends a read.
pub(crate) fn one_read(row: u64) -> usize
    ensures { result ≡ pick (eqb (kind_of row) 4) 1 0 }
{
    if kind(row) == 4 { 1 } else { 0 }
}

// The lag of the read that the row ends, if it ends one: the writes begun before it, less the rank of the one it stands behind.
pub(crate) fn lag_of(row: u64, begun: usize, rank: usize) -> usize
    requires { kind_of row ≡ 4 → rank ≤ begun }
    ensures { result ≡ pick (eqb (kind_of row) 4) (begun - rank) 0 }
{
    if kind(row) == 4 { begun - rank } else { 0 }
}

// The lines of the readers 1..n, added.
pub(crate) fn over_readers(lines: &[Line; PROCESSORS], n: usize) -> Line
    requires { (n ≤ 16) × ((i : ℕ) → (line_at lines.now i).reads < 2 ^ 32) × ((i : ℕ) → (line_at lines.now i).lags < 2 ^ 32) }
    ensures reads { result.reads ≡ over_readers (λ i. (line_at lines.now i).reads) n }
    ensures lags { result.lags ≡ over_readers (λ i. (line_at lines.now i).lags) n }
{
    let mut reads = 0;
    let mut lags = 0;
    for i in 0..n {
        reads += lines[i + 1].reads;
        lags += lines[i + 1].lags;
    }
    Line { reads, lags }
}
