// Where each cell stands in the table: row_start(n, i) + in_row(i, j), of the cell from processor i to reader j.
ghost use Rattle.std.specs.Prelude.{◌≡◌};
ghost use Rattle.counted.specs.Table.{row_start, in_row};

// Where the row of processor i starts.
#[tactic(auto, unfolding(counted::specs::Table::row_start))]
pub fn row_start(n: u32, i: u32) -> usize
    ensures { result ≡ row_start n i }
{
    if i == 0 || n == 0 {
        return 0;
    }
    let m = n as usize;
    let k = i as usize;
    m + (k - 1) * (m - 1)
}

// Where in the row of processor i the cell to reader j stands.
#[tactic(auto, unfolding(counted::specs::Table::in_row))]
pub fn in_row(i: u32, j: u32) -> usize
    ensures { result ≡ in_row i j }
{
    if j < 2 {
        0
    } else if i == 0 || j < i {
        j as usize - 1
    } else {
        j as usize - 2
    }
}
