// The line of the judge's verdict.
ghost use Rattle.std.specs.Prelude.{◌≡◌, ◌≤◌, length, take};
ghost use Rattle.lines.specs.Lines.{Puts, Within};
ghost use Rattle.lines.specs.Adds.{Adds};
ghost use Rattle.printing.specs.Verdict.{verdict_line, verdict_print};
ghost use Rattle.prints.specs.Said.{Fits, refusal_line, said_line};

use judging::Fault;
use lines::Sink;

// The line of a refusal.
pub(crate) fn put_refusal(out: &mut Sink, fault: Fault)
    ensures { Adds (refusal_line fault) out.old out.new }
{
    match fault {
        Fault::NoOrder(row) => out.put_no_order(row as u64),
        _ => out.put_refused(fault.number() as u64),
    }
}

// The line of a verdict, with the places that it leaves.
fn put_said(out: &mut Sink, verdict: Result<usize, Fault>, places: &[u64])
    requires { Fits verdict places.now }
    ensures { Adds (said_line verdict places.now) out.old out.new }
{
    match verdict {
        Ok(n) => out.put_order(&places[..n]),
        Err(fault) => put_refusal(out, fault),
    }
}

// What the judge says of a log's rows. There are places for every order.
pub fn put_verdict(out: &mut Sink, rows: &[u64])
    ensures { Adds (verdict_line rows.now) out.old out.new }
{
    let mut places = [0u64; 4096];
    let verdict = judge::rows::judge(rows, &mut places);
    put_said(out, verdict, &places);
}

// The same of a log as bytes.
fn put_bytes(out: &mut Sink, bytes: &[u8])
    ensures { Adds (verdict_print bytes.now) out.old out.new }
{
    let mut rows = [0u64; 4096];
    let count = logbytes::rows_in(bytes, &mut rows);
    put_verdict(out, &rows[..count]);
}

// What the program `verdict` prints for a log as bytes, at the front. 131,072 bytes have room for every such print.
pub fn verdict_print(bytes: &[u8], out: &mut [u8]) -> usize
    ensures print { Puts (verdict_print bytes.now) 0 out.old out.new result }
    ensures within { Within result out.new }
    ensures whole { 131072 ≤ length out.old → take result out.new ≡ verdict_print bytes.now }
{
    let mut print = Sink::new(out);
    put_bytes(&mut print, bytes);
    print.at
}
