// One sub-step of one processor over a lent table, of either register.
#![tactic(auto)]

ghost use Rattle.std.specs.Prelude.{◌≡◌, ℕ, true, ◌&&◌, ◌≤◌, ◌<◌};
ghost use Rattle.common.specs.declared.Writer.{Writer};
ghost use Rattle.common.specs.declared.Reader.{Reader};
ghost use Rattle.steps.specs.Step.{serves, writes, reads, write_step_of, read_step_of};
ghost use Rattle.steps.specs.Contract.{write_stepped, read_stepped};
ghost use Rattle.steps.specs.Few.{write_few, read_few, counted_write_few, counted_read_few};

use common::{Reader, Writer};
use kinds::{Counting, Protocol, Tickets};

mod cells; // words of the table
mod write; // a write of the first register
mod read; // a read of the first register
mod counting; // both of the counted register

// A register's sub-steps, whatever is handed over.
pub trait Steps: Protocol {
    // A sub-step of the writer, with n readers; nothing where it has no open write in range, or the table is too small.
    fn write_step(w: Writer, n: u32, table: &mut [u64]) -> Writer
        ensures { write_stepped result table.new ≡ write_step_of Self.rules n w table.old };

    // A sub-step of reader p of n, likewise.
    fn read_step(r: Reader, n: u32, p: u32, table: &mut [u64]) -> Reader
        ensures { read_stepped result table.new ≡ read_step_of Self.rules n p r table.old };

    // An open operation in range has moved few words.
    ghost write_low: { (n : ℕ) (w : Writer) → n ≤ 16 → w.active ≡ true → Self.rules.writer_ok n w ≡ true → w.moved < 32 };

    ghost read_low: { (n p : ℕ) (r : Reader) → n ≤ 16 → 1 ≤ p → p ≤ n → r.active ≡ true → Self.rules.reader_ok n r ≡ true → r.moved < 64 };
}

// Each register says it for itself: as one body in the trait, the step within would be a public method that asks something (`TableOk`), and
// nothing public has a `requires`.
impl Steps for Tickets {
    #[tactic(auto, unfolding(crate::specs::Step::write_step_of))]
    fn write_step(w: Writer, n: u32, table: &mut [u64]) -> Writer {
        if has_write::<Self>(w, n, table.len()) {
            write::write_step(w, n, table)
        } else {
            w
        }
    }

    #[tactic(auto, unfolding(crate::specs::Step::read_step_of))]
    fn read_step(r: Reader, n: u32, p: u32, table: &mut [u64]) -> Reader {
        if has_read::<Self>(r, n, p, table.len()) {
            read::read_step(r, n, p, table)
        } else {
            r
        }
    }

    ghost write_low = { write_few };

    ghost read_low = { read_few };
}

impl Steps for Counting {
    #[tactic(auto, unfolding(crate::specs::Step::write_step_of))]
    fn write_step(w: Writer, n: u32, table: &mut [u64]) -> Writer {
        if has_write::<Self>(w, n, table.len()) {
            counting::write_step(w, n, table)
        } else {
            w
        }
    }

    #[tactic(auto, unfolding(crate::specs::Step::read_step_of))]
    fn read_step(r: Reader, n: u32, p: u32, table: &mut [u64]) -> Reader {
        if has_read::<Self>(r, n, p, table.len()) {
            counting::read_step(r, n, p, table)
        } else {
            r
        }
    }

    ghost write_low = { counted_write_few };

    ghost read_low = { counted_read_few };
}

// Whether a table of so many cells serves n readers.
fn table_ok<P: Protocol>(n: u32, cells: usize) -> bool
    ensures { result ≡ serves P.rules n cells }
{
    1 <= n && n <= 16 && P::cells(n) <= cells
}

// Whether the writer has an open write in range, over a table of so many cells.
fn has_write<P: Protocol>(w: Writer, n: u32, cells: usize) -> bool
    ensures { result ≡ (serves P.rules n cells && writes P.rules n w) }
{
    table_ok::<P>(n, cells) && P::writer_ok(w, n as u8) && w.active
}

// The same of reader p and its read.
fn has_read<P: Protocol>(r: Reader, n: u32, p: u32, cells: usize) -> bool
    ensures { result ≡ (serves P.rules n cells && reads P.rules n p r) }
{
    table_ok::<P>(n, cells) && 1 <= p && p <= n && P::reader_ok(r, n as u8) && r.active
}
