// A trial: a register's state, table and log, and what the acts make of them.
ghost use Rattle.std.specs.Prelude.{◌≤◌};

use super::acts::{Act, Kind, Look};
use super::calls::Shown;
use super::changes::change;
use super::logs::{try_bytes, try_log};
use super::marks::{marks, written};
use super::text::{Answer, print_rows};
use common::State;
use common::calls::Call;
use common::numbers::answer_word;
use entries::{register_begin, register_retire, register_step};
use register::calls::{Called, begin_read};
use register::set_up::{set_up, set_up_counted};
use std::io;

// How many cells are watched: as many as 17 readers would need.
const CELLS: usize = 306;

// The state, and how many cells and rows are lent. The table and the log were tried as fields of the trial: the check has no rule for two
// fields that are lent behind a reference at once, one of them in part.
#[derive(Drop)]
struct Trial {
    state: State,
    cells: usize,
    rows: usize,
}

impl Trial {
    // Makes a call through the entries over a lent state. To them processor 0 is the writer, so a read by processor 0 is begun by value;
    // for a read the value is not looked at. What is no call begins a write of 0.
    fn make(&mut self, call: Option<Call>, table: &mut [u64], log: &mut [u64]) -> Answer {
        let state = &mut self.state;
        Answer(match call {
            Some(Call::Write(value)) => register_begin(state, table, log, 0, value),
            Some(Call::Read(0)) => {
                let called = begin_read(*state, table, log, 0);
                *state = called.state;
                answer_word(called.answer)
            }
            Some(Call::Read(p)) => register_begin(state, table, log, p, 0),
            Some(Call::Step(p)) => register_step(state, table, log, p),
            Some(Call::Retire(p)) => register_retire(state, table, log, p),
            None => register_begin(state, table, log, 0, 0),
        })
    }

    // A call: what it is, its answer and, if it is refused, whether state, table and log are as before.
    fn call(
        &mut self,
        rt: &impl Print,
        call: Option<Call>,
        is_printed: bool,
        table: &mut [u64; 4097],
        log: &mut [u64; 4097],
    ) -> io::Result<()> {
        let (lent_cells, lent_rows) = self.lent();
        if !is_printed {
            self.make(call, &mut table[..lent_cells], &mut log[..lent_rows]);
            return Ok(());
        }
        let state = self.state;
        let mut cells = [0u64; CELLS];
        let kept = lent_cells.min(CELLS);
        cells[..kept].copy_from_slice(&table[..kept]);
        let rows = *log;
        let answer = self.make(call, &mut table[..lent_cells], &mut log[..lent_rows]);
        let shown = Shown(call);
        print!(rt; "; {shown}: {answer}")?;
        if answer.refusal().is_none() {
            return Ok(());
        }
        if self.state == state && table[..kept] == cells[..kept] && *log == rows {
            print!(rt; ", unaltered")
        } else {
            print!(rt; ", altered")
        }
    }

    // How many cells and rows are lent, as far as there are any.
    fn lent(&self) -> (usize, usize)
        ensures cells { result.0 ≤ 4097 }
        ensures rows { result.1 ≤ 4097 }
    {
        (self.cells.min(4097), self.rows.min(4097))
    }

    // A set-up's answer, and how many words it wrote of buffers of marks.
    fn set_up(
        &mut self,
        rt: &impl Print,
        called: Called,
        is_printed: bool,
        table: &[u64],
        log: &[u64],
    ) -> io::Result<()> {
        self.state = called.state;
        if !is_printed {
            return Ok(());
        }
        let answer = Answer(answer_word(called.answer));
        let cells = written(table);
        let rows = written(log);
        print!(rt; "{answer}, cells written {cells}, rows written {rows}")
    }

    // The verdict on the rows that are used.
    fn judge_used(&self, rt: &impl Print, are_printed: bool, log: &[u64]) -> io::Result<()> {
        print!(rt; "; log")?;
        let used = &log[..self.state.head.used.min(log.len())];
        if are_printed {
            print_rows(rt, used)?;
        }
        try_log(rt, used, 16)
    }

    // What is looked at, of what is lent.
    fn look(&self, rt: &impl Print, look: Look, table: &[u64], log: &[u64]) -> io::Result<()> {
        match look {
            Look::Cells => {
                print!(rt; "; cells")?;
                print_rows(rt, table)
            }
            Look::Used { are_printed } => self.judge_used(rt, are_printed, log),
            Look::First { rows, places } => try_log(rt, &log[..rows.min(log.len())], places),
            Look::Bytes { count } => try_bytes(rt, log, count),
        }
    }

    fn act(
        &mut self,
        rt: &impl Print,
        act: Act,
        table: &mut [u64; 4097],
        log: &mut [u64; 4097],
    ) -> io::Result<()> {
        let (cells, rows) = self.lent();
        match act {
            Act::Call {
                call,
                state_stays,
                is_printed,
            } => {
                let state = self.state;
                self.call(rt, call, is_printed, table, log)?;
                if state_stays {
                    self.state = state;
                }
            }
            Act::Lend { cells, rows } => {
                self.cells = cells;
                self.rows = rows;
            }
            Act::SetUp {
                kind,
                n,
                is_printed,
            } => {
                let called = set_up_of(kind, n, &mut table[..cells], &mut log[..rows]);
                self.set_up(rt, called, is_printed, &table[..cells], &log[..rows])?;
            }
            Act::Change { p, field, value } => change(&mut self.state, p, field, value),
            Act::PutCell { at, word } => put(&mut table[..cells], at, word),
            Act::PutRow { at, word } => put(&mut log[..rows], at, word),
            Act::Look(look) => self.look(rt, look, &table[..cells], &log[..rows])?,
        }
        Ok(())
    }
}

// A set-up of n readers with start reading 7.
fn set_up_of(kind: Kind, n: u32, table: &mut [u64], log: &mut [u64]) -> Called {
    match kind {
        Kind::Tickets => set_up(n, 7, table, log),
        Kind::Counted { fresh } => set_up_counted(n, 7, fresh, table, log),
    }
}

// A word, to a place, if there is such a place.
fn put(words: &mut [u64], at: usize, word: u64) {
    if let Some(place) = words.get_mut(at) {
        *place = word;
    }
}

// The acts up to the first that is none: from the state of a refused set-up on, with buffers of marks, of which nothing is lent yet.
pub(crate) fn try_acts(rt: &impl Print, numbers: &[u64]) -> io::Result<()> {
    let mut table = marks();
    let mut log = marks();
    let called = set_up(0, 0, &mut table, &mut log);
    let mut trial = Trial {
        state: called.state,
        cells: 0,
        rows: 0,
    };
    for four in numbers.chunks_exact(4) {
        let Some(act) = Act::read(four) else {
            return Ok(());
        };
        trial.act(rt, act, &mut table, &mut log)?;
    }
    Ok(())
}
