// Set-up.
ghost use Rattle.std.specs.Prelude.{◌≡◌, ◌++◌, ◌+◌, ◌-◌, ◌*◌, ◌≤◌, length, take, drop, replicate};
ghost use Rattle.common.specs.Answers.{reply};
ghost use Rattle.common.specs.SetUp.{no_state, set_up_of};
ghost use Rattle.protocol.specs.Rules.{ticket_rules};
ghost use Rattle.counted.specs.Rules.{counted_rules};
ghost use Rattle.register.specs.Contract.{outcome, left};

use super::calls::Called;
use super::rows::add_row;
use common::{Done, Head, Refusal, State};
use kinds::{Counting, Protocol, Tickets};
use reader::fresh_reader;
use writer::state::fresh_writer;

// The state of no readers: a refused set-up's.
fn no_state<P: Protocol>() -> State
    ensures { result ≡ no_state P.rules.counted }
{
    State {
        head: Head {
            counted: P::COUNTED,
            opens: 0,
            n: 0,
            rows: 0,
            used: 1,
        },
        writer: fresh_writer(0),
        readers: [fresh_reader(); 16],
    }
}

// A word, to the first n places of a row.
fn fill_row(row: &mut [u64], n: usize, word: u64)
    requires { n ≤ length row.old }
    ensures { row.new ≡ replicate n word ++ drop n row.old }
{
    row[..n].fill(word);
}

// A word, to the n cells of the row that starts at a place: the row is a part of the table.
fn fill_at(table: &mut [u64], at: usize, n: usize, word: u64)
    requires { at + n ≤ length table.old }
    ensures { table.new ≡ (take at table.old ++ replicate n word) ++ drop (at + n) table.old }
{
    fill_row(&mut table[at..], n, word);
}

// The fresh cells, the writer's first. Row by row, as each store has to reach its cell through a part of the table that starts at n times i.
fn fill_rows(table: &mut [u64], n: usize, rows: usize, own: u64, other: u64)
    requires { (1 ≤ rows) × (n * rows ≤ length table.old) }
    ensures { table.new ≡ (replicate n own ++ replicate (n * rows - n) other) ++ drop (n * rows) table.old }
{
    fill_at(table, 0, n, own);
    for i in 1..rows {
        fill_at(table, n * i, n, other);
    }
}

// Set-up over the state of no readers, which stays where it is refused.
fn fresh_register<P: Protocol>(
    state: &mut State,
    n: u32,
    value: u32,
    fresh: u32,
    table: &mut [u64],
    log: &mut [u64],
) -> Result<Done, Refusal>
    requires { state.old ≡ no_state P.rules.counted }
    ensures { left result state.new table.new log.new ≡ set_up_of P.rules n value fresh table.old log.old }
{
    if n < 1 || 16 < n {
        return Err(Refusal::Readers);
    }
    let cells = P::cells(n);
    if table.len() < cells {
        return Err(Refusal::Cells);
    }
    let rows = log.len();
    if rows < 3 || 4096 < rows {
        return Err(Refusal::Rows);
    }
    let own = n as usize;
    fill_rows(
        table,
        own,
        cells / own,
        P::own_word(value, fresh),
        P::other_word(fresh),
    );
    add_row(log, 0, 5, n as u8, value);
    state.head = Head {
        n,
        rows,
        ..state.head
    };
    state.writer = fresh_writer(fresh);
    Ok(Done::Accepted)
}

// A fresh register of n readers with a start value and, of the counted one, a fresh stamp, in the lent table and log.
pub fn set_up_of<P: Protocol>(
    n: u32,
    value: u32,
    fresh: u32,
    table: &mut [u64],
    log: &mut [u64],
) -> Called
    ensures { outcome result table.new log.new ≡ set_up_of P.rules n value fresh table.old log.old }
{
    let mut state = no_state::<P>();
    let answer = fresh_register::<P>(&mut state, n, value, fresh, table, log);
    Called { answer, state }
}

// A fresh register of n readers with a start value, in the lent table and log.
pub fn set_up(n: u32, value: u32, table: &mut [u64], log: &mut [u64]) -> Called
    ensures { (outcome result table.new log.new ≡ set_up_of ticket_rules n value 0 table.old log.old)
        × (reply result.answer ≡ reply (set_up_of ticket_rules n value 0 table.old log.old).answer) }
{
    set_up_of::<Tickets>(n, value, 0, table, log)
}

// A fresh counted register, with a fresh stamp too.
pub fn set_up_counted(n: u32, value: u32, fresh: u32, table: &mut [u64], log: &mut [u64]) -> Called
    ensures { (outcome result table.new log.new ≡ set_up_of counted_rules n value fresh table.old log.old)
        × (reply result.answer ≡ reply (set_up_of counted_rules n value fresh table.old log.old).answer) }
{
    set_up_of::<Counting>(n, value, fresh, table, log)
}
