// The course sheet of a log's rows.
ghost use Rattle.std.specs.Prelude.{◌≡◌};
ghost use Rattle.std.specs.Result.{result_ok};
ghost use Rattle.judging.specs.Answer.{unlisted};
ghost use Rattle.lags.specs.Sheet.{sheet_answer, figures_of};
ghost use Rattle.lags.specs.Meaning.{SheetSays};

use super::fill::figures;
use judge::rows::settle;
use judging::Fault;
use lags::Figures;

// The sheet: the figures, or what the judge would refuse with places enough. No place is lent, so that no operation is listed.
pub fn sheet(rows: &[u64]) -> Result<Figures, Fault>
    ensures answer { unlisted result ≡ sheet_answer rows.now }
    ensures figures { result_ok result ≡ figures_of rows.now }
    ensures meaning { SheetSays rows.now result }
{
    // Not `?`, which calls functions that `Frame.of_sheet` does not name: theorem `keeps_little`.
    match settle(rows, rows.len()) {
        Ok(()) => Ok(figures(rows)),
        Err(fault) => Err(fault),
    }
}
