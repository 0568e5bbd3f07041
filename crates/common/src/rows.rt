// Rows of the log.
ghost use Rattle.std.specs.Prelude.{◌≡◌};
ghost use Rattle.words.specs.Row.{row_of};

use words::row::Row;

// A row as a word.
pub fn row_of(kind: u8, processor: u8, value: u32) -> u64
    ensures { result ≡ row_of kind processor value }
{
    u64::from(Row {
        kind,
        processor,
        value,
    })
}
