// Buffers of marks.
ghost use Rattle.std.specs.Prelude.{◌≡◌, length};

// What buffers hold before anything is written to them: no cell, no row and no begin row.
const MARK: u64 = 0xFFFF_FFFF_FFFF_FFFF;

// A buffer of marks.
pub(crate) fn marks() -> [u64; 4097]
    ensures { 4097 ≡ length result }
{
    [MARK; 4097]
}

// How many words are not the mark.
pub(crate) fn written(words: &[u64]) -> usize {
    words.iter().filter(|word| **word != MARK).count()
}
