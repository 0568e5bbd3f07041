// The figures of a log that has an order.
ghost use Rattle.std.specs.Prelude.{◌≡◌, length};
ghost use Rattle.history.specs.Listing.{listing};
ghost use Rattle.judging.specs.Answer.{settled_of};
ghost use Rattle.lags.specs.Sheet.{lines_in, figures_in};

use super::add::{lag_of, one_read, over_readers, rank_from, with_write};
use judge::row::{PROCESSORS, processor};
use judge::sweep::{Sweep, floor_after, larger};
use lags::{Figures, Line};

// The readers' lines: the judge's sweep, which adds at each row that ends a read. Beside each floor stands its rank, from which the rank of
// what is found is counted on. A processor's floors never fall, so that each of the n + 1 passes a row once.
fn lines(rows: &[u64]) -> [Line; PROCESSORS]
    requires { (settled_of rows.now (length rows.now)).number ≡ 0 }
    ensures { result ≡ lines_in rows.now (listing rows.now) }
{
    let mut sweep = Sweep::new();
    // Apart from the judge's sweep, which has the floors.
    let mut ranks = [0; PROCESSORS];
    let mut lines = [Line { reads: 0, lags: 0 }; PROCESSORS];
    let mut top_rank = 0;
    let mut begun = 0;
    for k in 1..rows.len() {
        let row = rows[k];
        let p = processor(row);
        let found = sweep.pass(rows, k);
        let rank = rank_from(rows, found.open.floor, ranks[p], found.place);
        let line = lines[p];
        lines[p] = Line {
            reads: line.reads + one_read(row),
            lags: line.lags + lag_of(row, begun, rank),
        };
        ranks[p] = floor_after(row, ranks[p], top_rank);
        top_rank = larger(top_rank, rank);
        begun = with_write(row, begun);
    }
    lines
}

// The lines, and the totals: per reader and then over readers.
pub(crate) fn figures(rows: &[u64]) -> Figures
    requires { (settled_of rows.now (length rows.now)).number ≡ 0 }
    ensures { result ≡ figures_in rows.now (listing rows.now) }
{
    let lines = lines(rows);
    let n = processor(rows[0]);
    let total = over_readers(&lines, n);
    Figures {
        readers: n,
        lines,
        total,
    }
}
