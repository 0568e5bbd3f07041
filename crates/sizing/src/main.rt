// Sizing a drill: reads `n writes reads` and prints the figures of both registers, for each of its inputs: see the crate `inputs`.
#![tactic(auto)]

ghost use Rattle.std.specs.Prelude.{refl};
ghost use Rattle.inputs.proofs.Fits.{fits};
ghost use Rattle.printing.specs.Sizing.{sizing_print};
ghost use Rattle.printing.proofs.SizingShort.{sizing_short};

use inputs::{Prints, TEXT};
use sizes::print::sizing_print;
use std::io;

struct Sizing;

impl Prints<TEXT, 256> for Sizing {
    ghost said = { sizing_print };

    fn print(bytes: &[u8], out: &mut [u8]) -> usize {
        sizing_print(bytes, out)
    }

    ghost short = { sizing_short };

    ghost room_fits = { fits 65537 refl };

    ghost size_fits = { fits 256 refl };
}

fn main(rt: HostRuntime) -> io::Result<()> {
    Sizing::print_each(&rt)?;
    Ok(())
}
