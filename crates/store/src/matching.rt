// Question 16: do the bytes and the rows match?
ghost use Rattle.std.specs.Prelude.{◌≡◌, ◌+◌, ◌≤◌, length};
ghost use Rattle.storing.specs.Strips.{matched};
ghost use Rattle.store.specs.Places.{AllOf};

use super::count::count;
use judge::row::processor;

// Whether the c rows from `at` on are all of processor p.
fn all_of(rows: &[u64], at: usize, c: usize, p: usize) -> bool
    requires { at + c ≤ length rows.now }
    ensures { AllOf rows.now at c p result }
{
    rows[at..at + c].iter().all(|row| processor(*row) == p)
}

// Whether the rows after row 0 are as many of processor 0 as there are bytes 0, then as many of processor 1, and so on.
pub(crate) fn matching(bytes: &[u8], rows: &[u64]) -> bool
    ensures { result ≡ matched bytes.now rows.now }
{
    if rows.len() != bytes.len() + 1 {
        return false;
    }
    let mut at = 1;
    let mut p = 0;
    // A `while`: it ends where the rows do, mostly at processor 17 of 256, and not by its counter.
    while at < rows.len() {
        let c = count(bytes, p);
        if !all_of(rows, at, c, p) {
            return false;
        }
        at += c;
        p += 1;
    }
    true
}
