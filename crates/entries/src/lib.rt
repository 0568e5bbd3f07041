// The register's entries over a lent state, for a host in C too: "A thin entry takes the register's state as a lent record and updates
// that record itself; all else passes state by value." Each calls the register with a copy of the record, and stores the state that
// this returned. The answer is a word: above, the refusal number or 0; below, the sub-step's number or 0.
#![tactic(auto)]

pub mod local; // the entries over a state in a local

ghost use Rattle.std.specs.Prelude.{◌≡◌};
ghost use Rattle.common.specs.CallWords.{answer_word};
ghost use Rattle.protocol.specs.Rules.{ticket_rules};
ghost use Rattle.counted.specs.Rules.{counted_rules};
ghost use Rattle.entries.specs.Contract.{begin_of, step_of, retire_of, set_up_over, unless_refused, word_outcome, in_word};

use common::State;
use common::numbers::answer_word;
use register::calls::{Called, begin_read, begin_write, retire, step};
use register::set_up::{set_up, set_up_counted};

// A call's answer as a word, and the state to hand to the next one.
#[derive(Clone, Copy, Debug, PartialEq, Eq)]
pub struct Worded {
    pub word: u64,
    pub state: State,
}

// What a call by value gave, with its answer as a word.
pub fn in_word(called: Called) -> Worded
    ensures { (result.word ≡ answer_word called.answer) × (result.state ≡ called.state) }
{
    let Called { answer, state } = called;
    let word = answer_word(answer);
    Worded { word, state }
}

// Stores the state that a call gave, and tells its answer.
fn store(state: &mut State, called: Called) -> u64
    ensures { (result ≡ answer_word called.answer) × (state.new ≡ called.state) }
{
    *state = called.state;
    answer_word(called.answer)
}

// The same of a set-up. They differ in this: a refused call gives back what was lent, a refused set-up does not, so the lent state stays.
fn store_set_up(state: &mut State, called: Called) -> u64
    ensures { (result ≡ answer_word called.answer) × (state.new ≡ unless_refused called.answer state.old called.state) }
{
    if called.answer.is_ok() {
        *state = called.state;
    }
    answer_word(called.answer)
}

// A fresh register of n readers with a start reading. If it is refused the lent state stays, too.
pub fn register_set_up(
    state: &mut State,
    table: &mut [u64],
    log: &mut [u64],
    n: u32,
    start: u32,
) -> u64
    ensures { word_outcome result state.new table.new log.new ≡ in_word (set_up_over ticket_rules state.old table.old log.old n start 0) }
{
    store_set_up(state, set_up(n, start, table, log))
}

// A fresh counted register, with a fresh stamp too.
pub fn counted_set_up(
    state: &mut State,
    table: &mut [u64],
    log: &mut [u64],
    n: u32,
    start: u32,
    fresh: u32,
) -> u64
    ensures { word_outcome result state.new table.new log.new ≡ in_word (set_up_over counted_rules state.old table.old log.old n start fresh) }
{
    store_set_up(state, set_up_counted(n, start, fresh, table, log))
}

// Processor p begins: the writer, 0, a write of the value, and a reader a read.
pub fn register_begin(
    state: &mut State,
    table: &mut [u64],
    log: &mut [u64],
    p: u32,
    value: u32,
) -> u64
    ensures { word_outcome result state.new table.new log.new ≡ in_word (begin_of state.old table.old log.old p value) }
{
    let called = if p == 0 {
        begin_write(*state, table, log, value)
    } else {
        begin_read(*state, table, log, p)
    };
    store(state, called)
}

// A sub-step of processor p.
pub fn register_step(state: &mut State, table: &mut [u64], log: &mut [u64], p: u32) -> u64
    ensures { word_outcome result state.new table.new log.new ≡ in_word (step_of state.old table.old log.old p) }
{
    let called = step(*state, table, log, p);
    store(state, called)
}

// Reader p is retired, for good.
pub fn register_retire(state: &mut State, table: &mut [u64], log: &mut [u64], p: u32) -> u64
    ensures { word_outcome result state.new table.new log.new ≡ in_word (retire_of state.old table.old log.old p) }
{
    let called = retire(*state, table, log, p);
    store(state, called)
}
