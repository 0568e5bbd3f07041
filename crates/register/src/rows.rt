// The log's rows.
ghost use Rattle.std.specs.Prelude.{◌≡◌, ◌<◌, length, set};
ghost use Rattle.words.specs.Row.{row_of};

use common::rows::row_of;

// Adds a row at a place of the log. The kind is the papers' number, as in a row's word.
pub(crate) fn add_row(log: &mut [u64], at: usize, kind: u8, p: u8, value: u32)
    requires { at < length log.old }
    ensures { log.new ≡ set log.old at (row_of kind p value) }
{
    log[at] = row_of(kind, p, value);
}
