// Says of logs as bytes what the judge says of them, a line for each: `order` and the begin rows, `no order` and a row, or
// `refused` and a number. The logs are its inputs: see the crate `inputs`.
#![tactic(auto)]

ghost use Rattle.std.specs.Prelude.{refl};
ghost use Rattle.inputs.proofs.Fits.{fits};
ghost use Rattle.printing.specs.Verdict.{verdict_print};
ghost use Rattle.printing.proofs.Short.{verdict_short};

use inputs::{LOG, Prints};
use prints::verdict::verdict_print;
use std::io;

struct Verdict;

impl Prints<LOG, 131072> for Verdict {
    ghost said = { verdict_print };

    fn print(bytes: &[u8], out: &mut [u8]) -> usize {
        verdict_print(bytes, out)
    }

    ghost short = { verdict_short };

    ghost room_fits = { fits 32769 refl };

    ghost size_fits = { fits 131072 refl };
}

fn main(rt: HostRuntime) -> io::Result<()> {
    Verdict::print_each(&rt)?;
    Ok(())
}
