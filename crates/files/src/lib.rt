// A stored log as a file: what the program `strips` makes of its input, put into lent bytes. What does not fit is left out.
#![tactic(auto)]

ghost use Rattle.std.specs.Prelude.{◌≡◌, ◌≤◌, ◌%◌, length, take};
ghost use Rattle.logbytes.specs.Bytes.{rows_of, bytes_of};
ghost use Rattle.lines.specs.Lines.{Within};
ghost use Rattle.lines.specs.Adds.{Adds};
ghost use Rattle.storing.specs.File.{file_of, count_in, whole, rows_file, store_file, log_file, restore_file};
ghost use Rattle.files.specs.Made.{Made, put_count};

use lines::Sink;
use logbytes::rows_in;
use store::rows::{restore, store};
use storing::Fault;

// The bytes of rows.
fn put_rows(out: &mut Sink, rows: &[u64])
    ensures { Adds (bytes_of rows.now) out.old out.new }
{
    for row in rows {
        out.put_text(&row.to_be_bytes());
    }
}

// The bytes' count, the bytes, and the rows.
fn put_file(out: &mut Sink, bytes: &[u8], rows: &[u64])
    ensures { Adds (file_of bytes.now rows.now) out.old out.new }
{
    out.put_text(&(bytes.len() as u64).to_be_bytes());
    out.put_text(bytes);
    put_rows(out, rows);
}

// The file of a log's rows: how many bytes were put.
fn put_stored(out: &mut [u8], rows: &[u64]) -> Result<usize, Fault>
    ensures { Made (rows_file rows.now) out.old out.new result }
{
    let mut bytes = [0u8; 4095];
    let mut strips = [0u64; 4096];
    store(rows, &mut bytes, &mut strips)?;
    let mut file = Sink::new(out);
    put_file(&mut file, &bytes[..rows.len() - 1], &strips[..rows.len()]);
    Ok(file.at)
}

// The file of a log's bytes. 36,871 bytes have room for every such file.
pub fn store_file(log: &[u8], out: &mut [u8]) -> Result<usize, Fault>
    ensures made { Made (store_file log.now) out.old out.new result }
    ensures within { Within (put_count result) out.new }
    ensures whole { 36871 ≤ length out.old → take (put_count result) out.new ≡ (store_file log.now).bytes }
{
    let mut rows = [0u64; 4096];
    let n = rows_in(log, &mut rows);
    put_stored(out, &rows[..n])
}

// The count in the first eight bytes of a file.
fn count_in(file: &[u8]) -> u64
    requires { 8 ≤ length file.now }
    ensures { result ≡ count_in file.now }
{
    let mut count = [0; 8];
    count.copy_from_slice(&file[..8]);
    u64::from_be_bytes(count)
}

// Whether a file can be taken apart: it has a count, so many bytes, and whole rows.
fn is_whole(file: &[u8]) -> bool
    ensures { result ≡ whole file.now }
{
    if file.len() < 8 {
        return false;
    }
    let behind = (file.len() - 8) as u64;
    let count = count_in(file);
    if behind < count {
        return false;
    }
    (behind - count) % 8 == 0
}

// The bytes of the log that strips give: their bytes, and their rows as bytes.
fn put_restored(out: &mut [u8], bytes: &[u8], rest: &[u8]) -> Result<usize, Fault>
    requires { (length rest.now % 8 ≡ 0) × (length rest.now ≤ 65536) }
    ensures { Made (log_file bytes.now (rows_of rest.now)) out.old out.new result }
{
    let mut rows = [0u64; 8192];
    let n = rows_in(rest, &mut rows);
    let mut log = [0u64; 4096];
    restore(bytes, &rows[..n], &mut log)?;
    let mut made = Sink::new(out);
    put_rows(&mut made, &log[..n]);
    Ok(made.at)
}

// The log's bytes of a file. 32,768 bytes have room for every log.
pub fn restore_file(file: &[u8], out: &mut [u8]) -> Result<usize, Fault>
    ensures made { Made (restore_file file.now) out.old out.new result }
    ensures within { Within (put_count result) out.new }
    ensures whole { 32768 ≤ length out.old → take (put_count result) out.new ≡ (restore_file file.now).bytes }
{
    if 65536 < file.len() {
        return Err(Fault::WrongLength);
    }
    if !is_whole(file) {
        return Err(Fault::Unmatched);
    }
    let end = 8 + count_in(file) as usize;
    put_restored(out, &file[8..end], &file[end..])
}
