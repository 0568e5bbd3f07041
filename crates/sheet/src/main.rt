// The course sheet of logs as bytes: for each a line for each reader, `reader i reads k lag s`, and the totals, `all reads k lag s`; or
// `no order` and a row, or `refused` and a number. The logs are its inputs: see the crate `inputs`.
#![tactic(auto)]

ghost use Rattle.std.specs.Prelude.{refl};
ghost use Rattle.inputs.proofs.Fits.{fits};
ghost use Rattle.printing.specs.Sheet.{sheet_print};
ghost use Rattle.printing.proofs.SheetShort.{sheet_short};

use inputs::{LOG, Prints};
use prints::sheet::sheet_print;
use std::io;

struct Sheet;

impl Prints<LOG, 2048> for Sheet {
    ghost said = { sheet_print };

    fn print(bytes: &[u8], out: &mut [u8]) -> usize {
        sheet_print(bytes, out)
    }

    ghost short = { sheet_short };

    ghost room_fits = { fits 32769 refl };

    ghost size_fits = { fits 2048 refl };
}

fn main(rt: HostRuntime) -> io::Result<()> {
    Sheet::print_each(&rt)?;
    Ok(())
}
