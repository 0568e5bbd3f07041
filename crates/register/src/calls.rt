// Begins, sub-steps and retirements, of either register. The state goes by value and comes back by value, and C lends the table and the log
// apart from it. Within a call its parts work on one state in place, and leave it as it was where they refuse.
ghost use Rattle.std.specs.Prelude.{◌≡◌, true, false, ◌-◌, ◌≤◌, length, Ok};
ghost use Rattle.common.specs.Answers.{reply};
ghost use Rattle.common.specs.Head.{began, ended};
ghost use Rattle.common.specs.State.{reader_at, is_retired};
ghost use Rattle.common.specs.Rules.{InRange};
ghost use Rattle.common.specs.Register.{begin_write_of, begin_read_of, step_writer, step_reader, step_of, retire_of};
ghost use Rattle.kinds.specs.Rules.{rules_of};
ghost use Rattle.register.specs.Contract.{outcome, left};

use super::rows::add_row;
use common::limits::{count_one, has_room};
use common::{Done, Head, Refusal, State};
use kinds::{Counting, Protocol, Tickets};
use looks::value_in;
use questions::asked::ask;
use questions::range::state_ok;
use reader::{open_reader, retire_reader};
use steps::Steps;
use writer::state::open_writer;

// What a call gives: its answer, and the state to hand to the next one: state goes by value and comes back by value, refused or not.
#[derive(Clone, Copy, Debug, PartialEq, Eq)]
pub struct Called {
    pub answer: Result<Done, Refusal>,
    pub state: State,
}

// The head behind a begin, and its row.
fn began(h: Head) -> Head
    requires { (h.used ≤ 4096) × (h.opens ≤ 17) }
    ensures { result ≡ began h }
{
    Head {
        opens: h.opens + 1,
        used: h.used + 1,
        ..h
    }
}

// The head behind an end, and its row.
fn ended(h: Head) -> Head
    requires { (h.used ≤ 4096) × (1 ≤ h.opens) }
    ensures { result ≡ ended h }
{
    Head {
        opens: h.opens - 1,
        used: h.used + 1,
        ..h
    }
}

fn write_begun<P: Protocol>(
    state: &mut State,
    table: &[u64],
    log: &mut [u64],
    value: u32,
) -> Result<Done, Refusal>
    ensures { left result state.new table.now log.new ≡ begin_write_of P.rules state.old table.now log.old value }
{
    if !state_ok::<P>(*state, table.len(), log.len()) {
        return Err(Refusal::Range);
    }
    if state.writer.active {
        return Err(Refusal::Busy);
    }
    if !has_room(state.head) {
        return Err(Refusal::Full);
    }
    if !P::may_write(state.writer) {
        return Err(Refusal::Spent);
    }
    add_row(log, state.head.used, 1, 0, value);
    state.head = began(state.head);
    state.writer = open_writer(state.writer, value);
    Ok(Done::Accepted)
}

// Begin a write of a value.
pub fn begin_write(s: State, table: &mut [u64], log: &mut [u64], value: u32) -> Called
    ensures { (outcome result table.new log.new ≡ begin_write_of (rules_of s.head.counted) s table.old log.old value)
        × (reply result.answer ≡ reply (begin_write_of (rules_of s.head.counted) s table.old log.old value).answer) }
{
    let mut state = s;
    // Asked once in each public call: a generic function can not be handed on as a value, so four times.
    let answer = if s.head.counted {
        write_begun::<Counting>(&mut state, table, log, value)
    } else {
        write_begun::<Tickets>(&mut state, table, log, value)
    };
    Called { answer, state }
}

fn read_begun<P: Protocol>(
    state: &mut State,
    table: &[u64],
    log: &mut [u64],
    p: u32,
) -> Result<Done, Refusal>
    ensures { left result state.new table.now log.new ≡ begin_read_of P.rules state.old table.now log.old p }
{
    ask::<P>(*state, table.len(), log.len(), 1, p)?;
    let i = p as usize - 1;
    let r = state.readers[i];
    if r.active {
        return Err(Refusal::Busy);
    }
    if !has_room(state.head) {
        return Err(Refusal::Full);
    }
    add_row(log, state.head.used, 3, p as u8, 0);
    state.head = began(state.head);
    state.readers[i] = open_reader(r);
    Ok(Done::Accepted)
}

// Begin a read by reader p.
pub fn begin_read(s: State, table: &mut [u64], log: &mut [u64], p: u32) -> Called
    ensures { (outcome result table.new log.new ≡ begin_read_of (rules_of s.head.counted) s table.old log.old p)
        × (reply result.answer ≡ reply (begin_read_of (rules_of s.head.counted) s table.old log.old p).answer) }
{
    let mut state = s;
    let answer = if s.head.counted {
        read_begun::<Counting>(&mut state, table, log, p)
    } else {
        read_begun::<Tickets>(&mut state, table, log, p)
    };
    Called { answer, state }
}

// A sub-step of the open write.
fn step_writer<P: Steps>(state: &mut State, table: &mut [u64], log: &mut [u64]) -> Done
    requires { InRange P.rules state.old (length table.old) (length log.old) × (state.old.writer.active ≡ true) }
    ensures { left (Ok result) state.new table.new log.new ≡ step_writer P.rules state.old table.old log.old }
{
    let w = state.writer;
    let done = Done::Moved(w.moved + 1);
    let next = P::write_step(w, state.head.n, table);
    state.writer = next;
    if next.active {
        return done;
    }
    add_row(log, state.head.used, 2, 0, 0);
    state.head = ended(state.head);
    done
}

// A sub-step of reader p's open read.
fn step_reader<P: Steps>(state: &mut State, table: &mut [u64], log: &mut [u64], p: u32) -> Done
    requires { InRange P.rules state.old (length table.old) (length log.old) × (1 ≤ p) × (p ≤ state.old.head.n) × (is_retired state.old p ≡ false) × ((reader_at state.old (p - 1)).active ≡ true) }
    ensures { left (Ok result) state.new table.new log.new ≡ step_reader P.rules state.old table.old log.old p }
{
    let i = p as usize - 1;
    let r = state.readers[i];
    let done = Done::Moved(r.moved + 1);
    let next = P::read_step(r, state.head.n, p, table);
    state.readers[i] = next;
    if next.active {
        return done;
    }
    add_row(log, state.head.used, 4, p as u8, value_in(next.result));
    state.head = ended(state.head);
    done
}

// A sub-step of processor p, if it has an open operation (8).
fn stepped<P: Steps>(
    state: &mut State,
    table: &mut [u64],
    log: &mut [u64],
    p: u32,
) -> Result<Done, Refusal>
    ensures { left result state.new table.new log.new ≡ step_of P.rules state.old table.old log.old p }
{
    ask::<P>(*state, table.len(), log.len(), 0, p)?;
    if p == 0 {
        if !state.writer.active {
            return Err(Refusal::Idle);
        }
        return Ok(step_writer::<P>(state, table, log));
    }
    if !state.readers[p as usize - 1].active {
        return Err(Refusal::Idle);
    }
    Ok(step_reader::<P>(state, table, log, p))
}

// A sub-step of processor p.
pub fn step(s: State, table: &mut [u64], log: &mut [u64], p: u32) -> Called
    ensures { (outcome result table.new log.new ≡ step_of (rules_of s.head.counted) s table.old log.old p)
        × (reply result.answer ≡ reply (step_of (rules_of s.head.counted) s table.old log.old p).answer) }
{
    let mut state = s;
    let answer = if s.head.counted {
        stepped::<Counting>(&mut state, table, log, p)
    } else {
        stepped::<Tickets>(&mut state, table, log, p)
    };
    Called { answer, state }
}

// Reader p is in the set of the retired, and its operation counts as open no longer.
fn retired<P: Protocol>(
    state: &mut State,
    table: &[u64],
    log: &[u64],
    p: u32,
) -> Result<Done, Refusal>
    ensures { left result state.new table.now log.now ≡ retire_of P.rules state.old table.now log.now p }
{
    ask::<P>(*state, table.len(), log.len(), 1, p)?;
    let i = p as usize - 1;
    let r = state.readers[i];
    state.head.opens = state.head.opens - count_one(r.active) as u8;
    state.readers[i] = retire_reader(r);
    Ok(Done::Accepted)
}

// Retire reader p, for good. The table and the log stay as they are: they are lent for question 4.
pub fn retire(s: State, table: &mut [u64], log: &mut [u64], p: u32) -> Called
    ensures { (outcome result table.new log.new ≡ retire_of (rules_of s.head.counted) s table.old log.old p)
        × (reply result.answer ≡ reply (retire_of (rules_of s.head.counted) s table.old log.old p).answer) }
{
    let mut state = s;
    let answer = if s.head.counted {
        retired::<Counting>(&mut state, table, log, p)
    } else {
        retired::<Tickets>(&mut state, table, log, p)
    };
    Called { answer, state }
}
