// The listing and the order of a log.
ghost use Rattle.lines.specs.Adds.{Adds};
ghost use Rattle.printing.specs.Print.{log_print};

use super::verdict::put_verdict;
use lines::Sink;
use walker::list_rows;

// The readers and the start reading, the rows from row 1 on, and the order. "The listing uses a walker made of the lent log and the next row."
pub(crate) fn put_log(out: &mut Sink, n: u32, start: u32, rows: &[u64])
    ensures { Adds (log_print n start rows.now) out.old out.new }
{
    out.put_readers(n as u64, start as u64);
    list_rows(rows, out);
    put_verdict(out, rows);
}
