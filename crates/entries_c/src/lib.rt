// The register's entries over a lent state, for a host in C: what the crate `entries` promises, under the names of include/register.h.
#![tactic(auto)]

ghost use Rattle.std.specs.Prelude.{◌≡◌};
ghost use Rattle.protocol.specs.Rules.{ticket_rules};
ghost use Rattle.counted.specs.Rules.{counted_rules};
ghost use Rattle.entries.specs.Contract.{begin_of, step_of, retire_of, set_up_over, word_outcome, in_word};

use common::State;

// A fresh register of n readers with a start reading. If it is refused the lent state stays, too.
#[unsafe(no_mangle)]
pub extern "C" fn register_set_up(
    state: &mut State,
    table: &mut [u64],
    log: &mut [u64],
    n: u32,
    start: u32,
) -> u64
    ensures { word_outcome result state.new table.new log.new ≡ in_word (set_up_over ticket_rules state.old table.old log.old n start 0) }
{
    entries::register_set_up(state, table, log, n, start)
}

// A fresh counted register, with a fresh stamp too.
#[unsafe(no_mangle)]
pub extern "C" fn counted_set_up(
    state: &mut State,
    table: &mut [u64],
    log: &mut [u64],
    n: u32,
    start: u32,
    fresh: u32,
) -> u64
    ensures { word_outcome result state.new table.new log.new ≡ in_word (set_up_over counted_rules state.old table.old log.old n start fresh) }
{
    entries::counted_set_up(state, table, log, n, start, fresh)
}

// Processor p begins: the writer, 0, a write of the value, and a reader a read.
#[unsafe(no_mangle)]
pub extern "C" fn register_begin(
    state: &mut State,
    table: &mut [u64],
    log: &mut [u64],
    p: u32,
    value: u32,
) -> u64
    ensures { word_outcome result state.new table.new log.new ≡ in_word (begin_of state.old table.old log.old p value) }
{
    entries::register_begin(state, table, log, p, value)
}

// A sub-step of processor p.
#[unsafe(no_mangle)]
pub extern "C" fn register_step(
    state: &mut State,
    table: &mut [u64],
    log: &mut [u64],
    p: u32,
) -> u64
    ensures { word_outcome result state.new table.new log.new ≡ in_word (step_of state.old table.old log.old p) }
{
    entries::register_step(state, table, log, p)
}

// Reader p is retired, for good.
#[unsafe(no_mangle)]
pub extern "C" fn register_retire(
    state: &mut State,
    table: &mut [u64],
    log: &mut [u64],
    p: u32,
) -> u64
    ensures { word_outcome result state.new table.new log.new ≡ in_word (retire_of state.old table.old log.old p) }
{
    entries::register_retire(state, table, log, p)
}
