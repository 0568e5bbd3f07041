// A fresh writer, one that begins a write, its tickets, and question 4 of it.
ghost use Rattle.std.specs.Prelude.{◌≡◌};
ghost use Rattle.common.specs.State.{writer_begins};
ghost use Rattle.common.specs.SetUp.{fresh_writer};
ghost use Rattle.protocol.specs.State.{excluded_by, tickets_ok, open_write_ok, writer_ok};
ghost use Rattle.protocol.specs.Write.{ticket_of};

use super::tickets::{walk_on, with_ticket};
use common::Writer;
use words::stamp::{Stamp, in_range};

// The writer of a fresh register of either kind, with its fresh stamp.
pub fn fresh_writer(fresh: u32) -> Writer
    ensures { result ≡ fresh_writer fresh }
{
    Writer {
        active: false,
        moved: 0,
        value: 0,
        excluded: 0,
        ticket: 63,
        stamp: Stamp { cur: 0, prev: 1 },
        count: fresh,
    }
}

// A write of a value begins, in a register of either kind.
pub fn open_writer(w: Writer, value: u32) -> Writer
    ensures { result ≡ writer_begins w value }
{
    let nothing_read = 0;
    Writer {
        active: true,
        moved: 0,
        value,
        excluded: nothing_read,
        ..w
    }
}

// The tickets that the write excludes, its own counted in.
pub fn excluded_by(w: Writer) -> u64
    ensures { result ≡ excluded_by w }
{
    with_ticket(with_ticket(w.excluded, w.stamp.cur), w.stamp.prev)
}

// The ticket that a sub-step stores: it is taken at the first store.
#[tactic(auto, using(protocol::proofs::Tickets::walk_small), unfolding(protocol::specs::Write::ticket_of))]
pub fn ticket_of(w: Writer, n: u32) -> u8
    ensures { result ≡ ticket_of n w }
{
    if w.moved as u32 == n {
        walk_on(excluded_by(w), w.stamp.cur, 3 * n + 2) as u8
    } else {
        w.ticket
    }
}

// The tickets of an open write: those excluded, until it takes its own.
fn tickets_ok(w: Writer, n: u8) -> bool
    ensures { result ≡ tickets_ok n w }
{
    if w.moved <= n {
        excluded_by(w).count_ones() <= 2 + 3 * w.moved as u32
    } else {
        w.ticket < 64
    }
}

fn open_write_ok(w: Writer, n: u8) -> bool
    ensures { result ≡ open_write_ok n w }
{
    !w.active || (w.moved as u32) < 2 * n as u32 && tickets_ok(w, n)
}

// Whether the writer is in range, with n readers.
#[tactic(auto, unfolding(protocol::specs::State::writer_ok))]
pub fn writer_ok(w: Writer, n: u8) -> bool
    ensures { result ≡ writer_ok n w }
{
    in_range(w.stamp) && open_write_ok(w, n)
}
