// Words of the table.
ghost use Rattle.std.specs.Prelude.{◌≡◌, ◌<◌, length, get_or, set};
ghost use Rattle.steps.specs.Contract.{TableOk};

use kinds::Protocol;

// The word from processor i to processor j.
pub(crate) fn word_from<P: Protocol>(table: &[u64], n: u32, i: u32, j: u32) -> u64
    requires { TableOk P.rules n (length table.now) × P.has n i j }
    ensures { result ≡ get_or table.now (P.place n i j) 0 }
{
    table[P::row_start(n, i) + P::in_row(i, j)]
}

// A word, to place k of a row.
fn put_word(row: &mut [u64], k: usize, word: u64)
    requires { k < length row.old }
    ensures { row.new ≡ set row.old k word }
{
    row[k] = word;
}

// A word, from processor i to processor j: the row of i is a part of the table, lent on to the leaf that stores.
pub(crate) fn store_word<P: Protocol>(table: &mut [u64], n: u32, i: u32, j: u32, word: u64)
    requires { TableOk P.rules n (length table.old) × P.has n i j }
    ensures { table.new ≡ set table.old (P.place n i j) word }
{
    let at = P::row_start(n, i);
    put_word(&mut table[at..], P::in_row(i, j), word);
}
