// The entries over a state that is kept in a local and lent to them, for callers without a lent record.
ghost use Rattle.std.specs.Prelude.{◌≡◌};
ghost use Rattle.entries.specs.Contract.{begin_of, step_of, retire_of, word_outcome, in_word};

use super::{Worded, register_begin, register_retire, register_step};
use common::State;

// Processor p begins.
pub fn begin(s: State, table: &mut [u64], log: &mut [u64], p: u32, value: u32) -> Worded
    ensures { word_outcome result.word result.state table.new log.new ≡ in_word (begin_of s table.old log.old p value) }
{
    let mut state = s;
    let word = register_begin(&mut state, table, log, p, value);
    Worded { word, state }
}

// A sub-step of processor p.
pub fn step(s: State, table: &mut [u64], log: &mut [u64], p: u32) -> Worded
    ensures { word_outcome result.word result.state table.new log.new ≡ in_word (step_of s table.old log.old p) }
{
    let mut state = s;
    let word = register_step(&mut state, table, log, p);
    Worded { word, state }
}

// Reader p is retired.
pub fn retire(s: State, table: &mut [u64], log: &mut [u64], p: u32) -> Worded
    ensures { word_outcome result.word result.state table.new log.new ≡ in_word (retire_of s table.old log.old p) }
{
    let mut state = s;
    let word = register_retire(&mut state, table, log, p);
    Worded { word, state }
}
