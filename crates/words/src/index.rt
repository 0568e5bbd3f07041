// Where each cell stands in the table: row_start(n, i) + in_row(i, j), of the cell from processor i to processor j.
ghost use Rattle.std.specs.Prelude.{◌≡◌};
ghost use Rattle.words.specs.Index.{row_start, in_row};

// Where the row of processor i starts.
pub fn row_start(n: u32, i: u32) -> usize
    ensures { result ≡ row_start n i }
{
    n as usize * i as usize
}

// Where in the row of processor i the cell to processor j stands.
#[tactic(auto, unfolding(crate::specs::Index::in_row))]
pub fn in_row(i: u32, j: u32) -> usize
    ensures { result ≡ in_row i j }
{
    if j < i || j == 0 {
        j as usize
    } else {
        j as usize - 1
    }
}
