// A round: set-up, the calls, and the judge on the used rows.
ghost use Rattle.std.specs.Prelude.{◌<◌, ◌≤◌};

use super::source::Calls;
use super::sum::{Checksum, Generator, SEED};
use judge::rows::judge;
use lists::{Ran, run, run_counted};

// What buffers hold before anything is written to them.
const MARK: u64 = 0xFFFF_FFFF_FFFF_FFFF;

// The first register, or the counted one. Without a stamp: it is drawn later.
#[derive(Clone, Copy)]
pub(crate) enum Kind {
    Tickets,
    Counted,
}

// Which register a set-up is of; the counted one has a fresh stamp too.
#[derive(Clone, Copy)]
enum Register {
    Tickets,
    Counted { fresh: u32 },
}

// What a set-up is given: which register, its readers and its start reading.
#[derive(Clone, Copy)]
struct Given {
    register: Register,
    n: u32,
    start: u32,
}

// A log's length.
fn draw_rows(generator: &mut Generator) -> usize
    ensures { (0 < result) × (result ≤ 4096) }
{
    match generator.below(8) {
        0 => 3,
        1 => 6,
        2 => 17,
        3 => 64,
        4 => 300,
        5 => 1024,
        6 => 2500,
        _ => 4096,
    }
}

// The longest burst: one, or so many times n+1 more.
fn draw_burst(generator: &mut Generator, n: u64) -> u64
    requires { n ≤ 16 }
    ensures { 0 < result }
{
    match generator.below(4) {
        0 => 1,
        1 => n + 2,
        2 => 2 * n + 3,
        _ => 3 * n + 4,
    }
}

// A fresh stamp: 0, 5, one of the last 4, or any.
fn draw_fresh(generator: &mut Generator) -> u32 {
    let kind = generator.below(4);
    let word = generator.draw() as u32;
    match kind {
        0 => 0,
        1 => 5,
        2 => u32::MAX - word % 4,
        _ => word,
    }
}

// The verdict on the rows, added: the refusal number or 0, the order's length, and the order.
fn add_verdict(sum: &mut Checksum, rows: &[u64]) {
    let mut order = [MARK; 4096];
    match judge(rows, &mut order) {
        Ok(n) => {
            sum.add(0);
            sum.add(n as u64);
            sum.add_all(&order[..n.min(4096)]);
        }
        Err(fault) => {
            sum.add(fault.number() as u64);
            sum.add(0);
        }
    }
}

// Set-up, and the calls in the words.
fn run_given(
    given: Given,
    words: &[u64],
    table: &mut [u64],
    log: &mut [u64],
    answers: &mut [u64],
) -> Ran {
    match given.register {
        Register::Tickets => run(given.n, given.start, words, table, log, answers),
        Register::Counted { fresh } => {
            run_counted(given.n, given.start, fresh, words, table, log, answers)
        }
    }
}

// The same with a log of so many rows, added: the answers, the whole table and log, the rows used, the number of open operations and the
// verdict. The table has 8 cells more than 16 readers of the first register need.
fn add_run(sum: &mut Checksum, given: Given, rows: usize, words: &[u64], answers: &mut [u64])
    requires { rows ≤ 4096 }
{
    let mut table = [MARK; 280];
    let mut room = [MARK; 4096];
    let log = &mut room[..rows];
    let ran = run_given(given, words, &mut table, log, answers);
    let head = ran.calls.state.head;
    sum.add_all(answers);
    sum.add_all(&table);
    sum.add_all(log);
    sum.add(head.used as u64);
    sum.add(head.opens as u64);
    add_verdict(sum, &log[..head.used.min(rows)]);
}

// Fills the words with calls, and makes them.
fn add_calls(sum: &mut Checksum, given: Given, rows: usize, calls: Calls, words: &mut [u64])
    requires { rows ≤ 4096 }
{
    let mut answers = [MARK; 65536];
    for (word, call) in words.iter_mut().zip(calls) {
        *word = call;
    }
    let count = words.len().min(65536);
    add_run(sum, given, rows, words, &mut answers[..count]);
}

// A register of a kind, with a fresh stamp if it has one.
fn draw_register(generator: &mut Generator, kind: Kind) -> Register {
    match kind {
        Kind::Tickets => Register::Tickets,
        Kind::Counted => Register::Counted {
            fresh: draw_fresh(generator),
        },
    }
}

// A round of one register for n readers: as many calls as the log's length asks for. With that span mostly some readers are left when the
// log is full.
pub(crate) fn add_round(sum: &mut Checksum, kind: Kind, n: u32, seed: u64)
    requires { n ≤ 16 }
{
    let mut generator = Generator::new(seed);
    let start = generator.below(4) as u32;
    let rows = draw_rows(&mut generator);
    let burst = draw_burst(&mut generator, n as u64);
    let register = draw_register(&mut generator, kind);
    let given = Given { register, n, start };
    let calls = Calls::new(n as u64, burst, 11 * rows as u64, generator);
    let mut words = [MARK; 65536];
    let count = (32 * rows).min(65536);
    add_calls(sum, given, rows, calls, &mut words[..count]);
}
