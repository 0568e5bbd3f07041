// Question 10: are the rows well formed?
ghost use Rattle.std.specs.Prelude.{◌≡◌};
ghost use Rattle.history.specs.WellFormed.{is_reader, head_ok, fields_ok, alternates, well_formed};

use super::row::{
    BAND, HALF, KIND, PROCESSOR, PROCESSORS, ZERO_BITS, is_begin, open_after, processor,
};

// Whether p is one of the readers 1..n.
fn is_reader(p: u64, n: u64) -> bool
    ensures { result ≡ is_reader p n }
{
    1 <= p && p <= n
}

// Whether a row is a row 0.
fn head_ok(row: u64) -> bool
    ensures { result ≡ head_ok row }
{
    row / KIND % 16 == 5 && row / ZERO_BITS % 0x10_0000 == 0 && is_reader(row / PROCESSOR % 256, 16)
}

// Whether a later row has its fields right, where there are n readers.
fn fields_ok(row: u64, n: u64) -> bool
    ensures { result ≡ fields_ok row n }
{
    let p = row / PROCESSOR % 256;
    let value = row % 0x1_0000_0000;
    if row / ZERO_BITS % 0x10_0000 != 0 {
        return false;
    }
    match row / KIND % 16 {
        1 => p == 0,
        2 => value == 0 && p == 0,
        3 => value == 0 && is_reader(p, n),
        4 => is_reader(p, n),
        BAND => is_reader(p, n) && value / HALF <= value % HALF,
        _ => false,
    }
}

// Whether a row may follow, where its processor's open operation was begun at row b, or b is 0.
fn may_follow(row: u64, b: usize) -> bool
    ensures { result ≡ alternates row b }
{
    if is_begin(row) { b == 0 } else { 0 < b }
}

// Whether the rows are well formed.
pub fn well_formed(rows: &[u64]) -> bool
    ensures { result ≡ well_formed rows.now }
{
    if rows.len() < 1 || !head_ok(rows[0]) {
        return false;
    }
    let n = rows[0] / PROCESSOR % 256;
    let mut begins = [0; PROCESSORS];
    for k in 1..rows.len() {
        let row = rows[k];
        if !fields_ok(row, n) {
            return false;
        }
        let p = processor(row);
        if !may_follow(row, begins[p]) {
            return false;
        }
        begins[p] = open_after(row, k);
    }
    true
}
