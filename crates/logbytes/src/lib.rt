// A log as bytes.
#![tactic(auto)]

ghost use Rattle.std.specs.Prelude.{◌++◌, ◌≡◌, ◌+◌, ◌^◌, ◌<◌, ◌≤◌, min, length, get_or, drop};
ghost use Rattle.logbytes.specs.Bytes.{half_at, word_at, read_into, rows_in, bytes_of};

// The word in the eight bytes from `at` on.
fn word_at(bytes: &[u8], at: usize) -> u64
    requires { at + 8 ≤ length bytes.now }
    ensures { result ≡ word_at bytes.now at }
{
    let mut word = [0; 8];
    word.copy_from_slice(&bytes[at..at + 8]);
    u64::from_be_bytes(word)
}

// Reads as many whole rows as there are, and as there is room for.
fn read_rows(bytes: &[u8], rows: &mut [u64])
    ensures { rows.new ≡ read_into bytes.now rows.old }
{
    let count = (bytes.len() / 8).min(rows.len());
    for i in 0..count {
        rows[i] = word_at(bytes, i * 8);
    }
}

// Reads the rows of bytes that are whole rows, if there is room for all, and gives their number; else none: no rows are
// refused 9 as such bytes are, so that an Option would say one thing twice.
pub fn rows_in(bytes: &[u8], rows: &mut [u64]) -> usize
    ensures { (result ≡ length (rows_in bytes.now (length rows.old)))
        × (rows.new ≡ rows_in bytes.now (length rows.old) ++ drop result rows.old) }
{
    let count = bytes.len() / 8;
    if bytes.len() % 8 != 0 || rows.len() < count {
        return 0;
    }
    read_rows(bytes, rows);
    count
}

// Byte k of rows as bytes; 0 behind the last.
pub fn byte_at(rows: &[u64], k: usize) -> u8
    ensures { result ≡ get_or (bytes_of rows.now) k 0 }
{
    if k / 8 < rows.len() {
        return ((rows[k / 8] >> (56 - 8 * (k % 8))) % 256) as u8;
    }
    0
}
