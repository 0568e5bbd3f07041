// The course sheet of a log.
ghost use Rattle.std.specs.Prelude.{◌≡◌, ◌≤◌, length, take};
ghost use Rattle.lines.specs.Lines.{Puts, Within};
ghost use Rattle.lines.specs.Adds.{Adds};
ghost use Rattle.printing.specs.Sheet.{lag_end, reader_line, reader_lines, figures_text, sheet_text, sheet_print};

use super::verdict::put_refusal;
use lags::{Figures, Line};
use lines::Sink;

// The end of a line: how many reads, and the sum of their lags.
fn put_end(out: &mut Sink, reads: usize, lags: usize)
    ensures { Adds (lag_end reads lags) out.old out.new }
{
    out.put_text(b" reads ");
    out.put_number(reads as u64);
    out.put_line(b" lag ", lags as u64);
}

// The line of reader i.
fn put_reader(out: &mut Sink, i: usize, reads: usize, lags: usize)
    ensures { Adds (reader_line i reads lags) out.old out.new }
{
    out.put_text(b"reader ");
    out.put_number(i as u64);
    put_end(out, reads, lags);
}

// The lines of the readers 1..n.
fn put_readers(out: &mut Sink, lines: [Line; 17], n: usize)
    requires { n ≤ 16 }
    ensures { Adds (reader_lines lines n) out.old out.new }
{
    for i in 0..n {
        let line = lines[i + 1];
        put_reader(out, i + 1, line.reads, line.lags);
    }
}

// The readers' lines, and the totals.
fn put_figures(out: &mut Sink, figures: Figures)
    requires { figures.readers ≤ 16 }
    ensures { Adds (figures_text figures) out.old out.new }
{
    put_readers(out, figures.lines, figures.readers);
    out.put_text(b"all");
    put_end(out, figures.total.reads, figures.total.lags);
}

// The sheet of a log's rows, or what the judge refuses them with.
fn put_sheet(out: &mut Sink, rows: &[u64])
    ensures { Adds (sheet_text rows.now) out.old out.new }
{
    match sheets::rows::sheet(rows) {
        Ok(figures) => put_figures(out, figures),
        Err(fault) => put_refusal(out, fault),
    }
}

// The same of a log as bytes.
fn put_bytes(out: &mut Sink, bytes: &[u8])
    ensures { Adds (sheet_print bytes.now) out.old out.new }
{
    let mut rows = [0u64; 4096];
    let count = logbytes::rows_in(bytes, &mut rows);
    put_sheet(out, &rows[..count]);
}

// What the program `sheet` prints for a log as bytes, at the front. 2,048 bytes have room for every such print.
pub fn sheet_print(bytes: &[u8], out: &mut [u8]) -> usize
    ensures print { Puts (sheet_print bytes.now) 0 out.old out.new result }
    ensures within { Within result out.new }
    ensures whole { 2048 ≤ length out.old → take result out.new ≡ sheet_print bytes.now }
{
    let mut print = Sink::new(out);
    put_bytes(&mut print, bytes);
    print.at
}
