// The bench: reads a register's size and calls, makes the calls, and prints the refusals, the listing of the log and its order, for each of
// its inputs: see the crate `inputs`.
#![tactic(auto)]

ghost use Rattle.std.specs.Prelude.{refl};
ghost use Rattle.inputs.proofs.Fits.{fits};
ghost use Rattle.printing.specs.Print.{bench_print};
ghost use Rattle.printing.proofs.Short.{bench_short};

use inputs::{Prints, TEXT};
use prints::bench::bench_print;
use std::io;

struct Bench;

impl Prints<TEXT, 1048576> for Bench {
    ghost said = { bench_print };

    fn print(bytes: &[u8], out: &mut [u8]) -> usize {
        bench_print(bytes, out)
    }

    ghost short = { bench_short };

    ghost room_fits = { fits 65537 refl };

    ghost size_fits = { fits 1048576 refl };
}

fn main(rt: HostRuntime) -> io::Result<()> {
    Bench::print_each(&rt)?;
    Ok(())
}
