// Questions 4, 5 and 13 of a call by a processor.
ghost use Rattle.std.specs.Prelude.{◌≡◌, ◌≤◌};
ghost use Rattle.common.specs.State.{is_retired};
ghost use Rattle.questions.specs.Asked.{asked_of};

use super::range::state_ok;
use common::limits::is_processor;
use common::{Refusal, State};
use kinds::Protocol;

// Whether processor p is a retired reader.
fn is_retired(s: State, p: u32) -> bool
    requires { p ≤ 16 }
    ensures { result ≡ is_retired s p }
{
    p != 0 && s.readers[p as usize - 1].retired
}

// Asks them of processor p, from the least on, with a table of so many cells and a log of so many rows: the first that is not passed is
// the refusal.
#[inline(always)]
pub fn ask<P: Protocol>(
    s: State,
    cells: usize,
    log: usize,
    least: u32,
    p: u32,
) -> Result<(), Refusal>
    ensures { result ≡ asked_of P.rules s cells log least p }
{
    if !state_ok::<P>(s, cells, log) {
        return Err(Refusal::Range);
    }
    if !is_processor(s.head, least, p) {
        return Err(Refusal::Processor);
    }
    if is_retired(s, p) {
        return Err(Refusal::Retired);
    }
    Ok(())
}
