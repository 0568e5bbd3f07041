// A sub-step of a write of the first register.
ghost use Rattle.std.specs.Prelude.{◌≡◌, ◌+◌, ◌-◌, ◌*◌, ◌<◌, ◌≤◌, length};
ghost use Rattle.protocol.specs.Rules.{ticket_rules};
ghost use Rattle.protocol.specs.Write.{writer_reads, ticket_of, write_step};
ghost use Rattle.steps.specs.Contract.{TableOk, WriteOk, stored_writer, write_stepped};

use super::cells::{store_word, word_from};
use common::Writer;
use kinds::Tickets;
use words::cell::Cell;
use words::stamp::{Stamp, no_stamp};
use writer::state::ticket_of;
use writer::tickets::with_cell;

// The next reader's cell is read.
fn reads_cell(w: Writer, n: u32, table: &[u64]) -> Writer
    requires { TableOk ticket_rules n (length table.now) × (w.moved < n) }
    ensures { result ≡ writer_reads n w table.now }
{
    let word = word_from::<Tickets>(table, n, w.moved as u32 + 1, 0);
    Writer {
        active: true,
        moved: w.moved + 1,
        excluded: with_cell(w.excluded, Cell::from(word)),
        ..w
    }
}

// The write goes on, or ends, behind a store of the ticket.
fn stored(w: Writer, n: u32, ticket: u8) -> Writer
    requires { WriteOk n w × (n ≤ 16) × (ticket ≡ ticket_of n w) }
    ensures { result ≡ stored_writer n w }
{
    let next = Writer {
        moved: w.moved + 1,
        ticket,
        ..w
    };
    if w.moved as u32 + 1 < 2 * n {
        return Writer {
            active: true,
            ..next
        };
    }
    let stamp = Stamp {
        cur: ticket,
        prev: w.stamp.cur,
    };
    Writer {
        active: false,
        stamp,
        ..next
    }
}

// A sub-step of the open write.
pub(crate) fn write_step(w: Writer, n: u32, table: &mut [u64]) -> Writer
    requires { TableOk ticket_rules n (length table.old) × WriteOk n w }
    ensures { write_stepped result table.new ≡ write_step n w table.old }
{
    if (w.moved as u32) < n {
        return reads_cell(w, n, table);
    }
    let ticket = ticket_of(w, n);
    let c = Cell {
        value: w.value,
        stamp: Stamp {
            cur: ticket,
            prev: w.stamp.cur,
        },
        announced: no_stamp(),
    };
    store_word::<Tickets>(table, n, 0, w.moved as u32 - n + 1, u64::from(c));
    stored(w, n, ticket)
}
