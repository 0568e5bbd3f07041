// Question 12: a sweep over the rows that gives each ended read the first row that it may stand behind.
ghost use Rattle.std.specs.Prelude.{◌≡◌, ℕ, ◌+◌, ◌-◌, ◌<◌, ◌≤◌, max, T, List, length, MatchOption};
ghost use Rattle.history.specs.Search.{first};
ghost use Rattle.history.specs.Sweep.{is_source, missing};
ghost use Rattle.history.specs.WellFormed.{well_formed};
ghost use Rattle.history.specs.History.{history_of};
ghost use Rattle.judging.specs.Rowwise.{place_row, floor_after, missing_after};
ghost use Rattle.judge.specs.Swept.{Swept, Finds, fresh_sweep, found_at, passed};

use super::row::{PROCESSORS, is_begin, kind, open_after, processor, suits_read};

// Whether row q is the start row or the begin of a write, and the read that row k ends may stand behind it. One test behind the other: with `||` and
// `&&` a log of 16 readers takes half as long again.
fn is_source(rows: &[u64], k: usize, q: usize) -> bool
    requires { (k < length rows.now) × (q < length rows.now) }
    ensures { result ≡ is_source (history_of rows.now) k q }
{
    let end = rows[k];
    let row = rows[q];
    if q == 0 {
        return suits_read(end, row % 0x1_0000_0000);
    }
    if kind(row) == 1 {
        return suits_read(end, row % 0x1_0000_0000);
    }
    false
}

// The first such row from lo on and below row k; k, or lo, if there is none. No Option: it is the place to go on from, `first` of
// history/specs/Search.
fn seek(rows: &[u64], k: usize, lo: usize) -> usize
    requires { k < length rows.now }
    ensures { result ≡ first (is_source (history_of rows.now) k) lo (k - lo) }
{
    for q in lo..k {
        if is_source(rows, k, q) {
            return q;
        }
    }
    larger(lo, k)
}

// What row k raises the floor to: the begin row b of a write that it ends, or the place of a read that it ends, with floor f; 0 if it ends
// nothing, or if there is no such row.
pub fn row_place(rows: &[u64], k: usize, b: usize, f: usize) -> usize
    ensures { result ≡ place_row rows.now k b f }
{
    if rows.len() <= k {
        return 0;
    }
    match kind(rows[k]) {
        2 => b,
        4 => seek(rows, k, f),
        _ => 0,
    }
}

// The floor of a processor's open operation after its row, where the floor there is top and was f.
pub fn floor_after(row: u64, f: usize, top: usize) -> usize
    ensures { result ≡ floor_after row f top }
{
    if is_begin(row) { top } else { f }
}

// The larger of two. Not by `max`, which calls a function that `Frame.of_rows` does not name: theorem `keeps_little`.
pub fn larger(a: usize, b: usize) -> usize
    ensures { result ≡ max a b }
{
    if a < b { b } else { a }
}

// The first read without a place after row k, which ends an operation begun at row b with place q; it was m.
fn missing_after(row: u64, k: usize, q: usize, b: usize, m: usize) -> usize
    ensures { result ≡ missing_after row k q b m }
{
    if kind(row) == 4 && k <= q && b < m {
        b
    } else {
        m
    }
}

// A processor's open operation: its begin row, or 0, and the floor there.
#[derive(Clone, Copy)]
pub struct Open {
    pub begin: usize,
    pub floor: usize,
}

// The sweep over the rows: what is open of each processor, and the floor now.
#[derive(Clone, Copy)]
pub struct Sweep {
    pub open: [Open; PROCESSORS],
    pub top: usize,
}

// What the sweep finds at a row: what was open of its processor, and the place that the row raises the floor to.
#[derive(Clone, Copy)]
pub struct Found {
    pub open: Open,
    pub place: usize,
}

impl Sweep {
    // The sweep before row 1.
    pub fn new() -> Self
        ensures fresh { result ≡ fresh_sweep }
        ensures swept { (log : List ℕ) → T (well_formed log) → Swept log 1 result }
    {
        let open = Open { begin: 0, floor: 0 };
        Sweep {
            open: [open; PROCESSORS],
            top: 0,
        }
    }

    // Takes row k on, and says what it finds. With no row k, or one of a processor past the last, it finds nothing and stays as it was. Inlined, since
    // a call for each row takes half as long again.
    #[inline(always)]
    pub fn pass(&mut self, rows: &[u64], k: usize) -> Found
        ensures finds { result ≡ found_at rows.now k self.old }
        ensures leaves { self.new ≡ passed rows.now k self.old }
        ensures found { T (well_formed rows.now) → k < length rows.now → Swept rows.now k self.old → Finds rows.now k result }
        ensures next { T (well_formed rows.now) → k < length rows.now → Swept rows.now k self.old → Swept rows.now (k + 1) self.new }
    {
        let nothing = Found {
            open: Open { begin: 0, floor: 0 },
            place: 0,
        };
        if rows.len() <= k {
            return nothing;
        }
        let row = rows[k];
        let p = processor(row);
        if PROCESSORS <= p {
            return nothing;
        }
        let open = self.open[p];
        let place = row_place(rows, k, open.begin, open.floor);
        self.open[p] = Open {
            begin: open_after(row, k),
            floor: floor_after(row, open.floor, self.top),
        };
        self.top = larger(self.top, place);
        Found { open, place }
    }
}

// The begin row of the first read without a place.
pub(crate) fn first_missing(rows: &[u64]) -> Option<usize>
    requires { T (well_formed rows.now) }
    ensures { MatchOption result (length rows.now ≤ missing (history_of rows.now))
        (λ m. (m ≡ missing (history_of rows.now)) × (m < length rows.now)) }
{
    let mut sweep = Sweep::new();
    // The least so far, of none the number of rows.
    let mut missing = rows.len();
    for k in 1..rows.len() {
        let found = sweep.pass(rows, k);
        missing = missing_after(rows[k], k, found.place, found.open.begin, missing);
    }
    if missing < rows.len() {
        Some(missing)
    } else {
        None
    }
}
