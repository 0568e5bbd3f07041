// Soak: random lists of calls of both registers for every number of readers, and a checksum of all that they leave: the answers, the table,
// the log and its order. The argument is the number of rounds of each, 4 if there is none; the outside model prints the same lines.
#![tactic(auto)]

mod sum; // the generator and the checksum
mod source; // the calls of a round
mod rounds; // a round: set-up, the calls, and the judge on the used rows

ghost use Rattle.std.specs.Prelude.{◌≤◌};

use fields::number_in;
use rounds::{Kind, add_round};
use std::env::{Env, FillError};
use std::io;
use sum::{Checksum, SEED};

fn print_sum(rt: &impl Print, kind: Kind, n: u32, sum: Checksum) -> io::Result<()> {
    let value = sum.value();
    match kind {
        Kind::Tickets => println!(rt; "n {n}: {value:016x}"),
        Kind::Counted => println!(rt; "counted n {n}: {value:016x}"),
    }
}

// The rounds of one register for n readers, and their line.
fn soak(rt: &impl Print, kind: Kind, n: u32, rounds: u64) -> io::Result<()>
    requires { n ≤ 16 }
{
    let mut sum = Checksum::new();
    for k in 0..rounds {
        add_round(&mut sum, kind, n, SEED ^ (((n as u64) << 32) | k));
    }
    print_sum(rt, kind, n, sum)
}

fn soak_all(rt: &impl Print, rounds: u64) -> io::Result<()> {
    for n in 1u32..17 {
        soak(rt, Kind::Tickets, n, rounds)?;
        soak(rt, Kind::Counted, n, rounds)?;
    }
    Ok(())
}

// As many rounds as a text says.
fn soak_text(rt: &impl Print, text: &[u8]) -> io::Result<()> {
    match number_in(text) {
        Some(rounds) => soak_all(rt, rounds.into()),
        None => println!(rt; "rounds: not a number"),
    }
}

fn main(rt: HostRuntime) -> io::Result<()> {
    let mut text = [0u8; 4096];
    match rt.arg(1, &mut text) {
        Ok(n) => soak_text(&rt, &text[..n]),
        Err(FillError::TooLong) => soak_text(&rt, b""),
        Err(FillError::NotPresent) => soak_all(&rt, 4),
    }
}
