// Sub-steps of the counted register.
ghost use Rattle.std.specs.Prelude.{◌≡◌, length};
ghost use Rattle.counted.specs.Steps.{write_step, read_on, read_step};
ghost use Rattle.counted.specs.Rules.{counted_rules};
ghost use Rattle.steps.specs.Contract.{TableOk, CountedWriteOk, CountedReadOk, write_stepped, read_stepped};

use super::cells::{store_word, word_from};
use common::others::other_reader;
use common::{Reader, Writer};
use counted::Cell;
use kinds::Counting;
use parts::word::larger_of;

// A sub-step of the open write: a store to the next reader.
pub(crate) fn write_step(w: Writer, n: u32, table: &mut [u64]) -> Writer
    requires { TableOk counted_rules n (length table.old) × CountedWriteOk n w }
    ensures { write_stepped result table.new ≡ write_step n w table.old }
{
    let moved = w.moved + 1;
    let count = w.count + 1;
    let c = Cell {
        value: w.value,
        stamp: count,
    };
    store_word::<Counting>(table, n, 0, moved as u32, u64::from(c));
    if (moved as u32) < n {
        return Writer {
            active: true,
            moved,
            ..w
        };
    }
    Writer {
        active: false,
        moved,
        count,
        ..w
    }
}

// A word more, with what has been met so far.
fn moves_on(r: Reader, n: u32, p: u32, res: u64) -> Reader
    requires { CountedReadOk n p r }
    ensures { result ≡ read_on n r res }
{
    let moved = r.moved + 1;
    Reader {
        active: (moved as u32) < 2 * n - 1,
        moved,
        result: res,
        ..r
    }
}

// A sub-step of reader p's open read.
pub(crate) fn read_step(r: Reader, n: u32, p: u32, table: &mut [u64]) -> Reader
    requires { TableOk counted_rules n (length table.old) × CountedReadOk n p r }
    ensures { read_stepped result table.new ≡ read_step n p r table.old }
{
    let m = r.moved;
    let met = r.result;
    if m as u32 + 1 < n {
        let q = other_reader(p, m);
        let word = word_from::<Counting>(table, n, q, p);
        return moves_on(r, n, p, larger_of(met, word));
    }
    if (m as u32) < n {
        let word = word_from::<Counting>(table, n, 0, p);
        return moves_on(r, n, p, larger_of(word, met));
    }
    let q = other_reader(p, m - n as u8);
    store_word::<Counting>(table, n, p, q, u64::from(Cell::from(met)));
    moves_on(r, n, p, met)
}
