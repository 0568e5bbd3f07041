// Every order of a short drill: reads `n start v a b` and prints a line for each schedule of a writer's a turns and reader 1's b, for each of its
// inputs: see the crate `inputs`.
#![tactic(auto)]

ghost use Rattle.std.specs.Prelude.{refl};
ghost use Rattle.inputs.proofs.Fits.{fits};
ghost use Rattle.printing.specs.Drill.{drill_print};
ghost use Rattle.printing.proofs.DrillShort.{drill_short};

use drills::print::drill_print;
use inputs::{Prints, TEXT};
use std::io;

struct Drill;

impl Prints<TEXT, 2097152> for Drill {
    ghost said = { drill_print };

    fn print(bytes: &[u8], out: &mut [u8]) -> usize {
        drill_print(bytes, out)
    }

    ghost short = { drill_short };

    ghost room_fits = { fits 65537 refl };

    ghost size_fits = { fits 2097152 refl };
}

fn main(rt: HostRuntime) -> io::Result<()> {
    Drill::print_each(&rt)?;
    Ok(())
}
