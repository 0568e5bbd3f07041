// Question 4.
ghost use Rattle.std.specs.Prelude.{◌≡◌, ◌≤◌};
ghost use Rattle.common.specs.State.{open_in};
ghost use Rattle.common.specs.Rules.{readers_ok, state_ok};

use common::State;
use common::limits::{count_one, head_ok};
use kinds::Protocol;
use reader::as_counted;

#[inline(always)]
fn readers_ok<P: Protocol>(s: State) -> bool
    requires { s.head.n ≤ 16 }
    ensures { result ≡ readers_ok P.rules s }
{
    let n = s.head.n as u8;
    s.readers[..n as usize]
        .iter()
        .all(|r| P::reader_ok(as_counted(*r), n))
}

// The open operations: the writer's, and those of the readers whose open read counts.
#[inline(always)]
fn open_in(s: State) -> usize
    requires { s.head.n ≤ 16 }
    ensures { result ≡ open_in s }
{
    let reads = s.readers[..s.head.n as usize]
        .iter()
        .filter(|r| as_counted(**r).active)
        .count();
    count_one(s.writer.active) + reads
}

// Whether the state is in range, with a table of so many cells and a log of so many rows.
#[inline(always)]
pub fn state_ok<P: Protocol>(s: State, cells: usize, log: usize) -> bool
    ensures { result ≡ state_ok P.rules s cells log }
{
    let h = s.head;
    if 16 < h.n {
        return false;
    }
    head_ok(P::cells(h.n), h, open_in(s), cells, log)
        && P::writer_ok(s.writer, h.n as u8)
        && readers_ok::<P>(s)
}
