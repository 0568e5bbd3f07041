// What a row of the log says.
ghost use Rattle.std.specs.Prelude.{◌≡◌};
ghost use Rattle.history.specs.Rows.{kind_of, suits, begins, processor_of};
ghost use Rattle.judging.specs.Rowwise.{open_after};

// Units of a row's fields.
pub(crate) const KIND: u64 = 0x1000_0000_0000_0000;

pub(crate) const PROCESSOR: u64 = 0x10_0000_0000_0000;

pub(crate) const ZERO_BITS: u64 = 0x1_0000_0000;

// A band's lowest is the upper half of its row's low 32 bits, its highest the lower half.
pub(crate) const HALF: u64 = 0x1_0000;

// The kind of the end of a read with a band.
pub(crate) const BAND: u64 = 6;

// The writer and up to 16 readers.
pub const PROCESSORS: usize = 17;

// The processor of a row.
pub fn processor(row: u64) -> usize
    ensures { result ≡ processor_of row }
{
    (row / PROCESSOR % 256) as usize
}

// The kind of a row by what it tells: a read's end is 4, with a result or with a band. No enum: `kind_of` of history/specs/Rows, by which all
// definitions go, is the papers' number.
pub fn kind(row: u64) -> u64
    ensures { result ≡ kind_of row }
{
    let bits = row / KIND % 16;
    if bits == BAND { 4 } else { bits }
}

// Whether a read that this row ends may stand behind a write of v: v is its result, or lies within its band, ends included.
pub(crate) fn suits_read(row: u64, v: u64) -> bool
    ensures { result ≡ suits row v }
{
    let value = row % 0x1_0000_0000;
    if row / KIND % 16 == BAND {
        value / HALF <= v && v <= value % HALF
    } else {
        v == value
    }
}

// Whether a row is a begin.
pub(crate) fn is_begin(row: u64) -> bool
    ensures { result ≡ begins row }
{
    let told = kind(row);
    told == 1 || told == 3
}

// The begin row of a processor's open operation after its row k, or 0. No Option: row 0 begins nothing, and the definition, `open_after` of
// judging/specs/Rowwise, tells none by it.
pub fn open_after(row: u64, k: usize) -> usize
    ensures { result ≡ open_after row k }
{
    if is_begin(row) { k } else { 0 }
}
