// "The listing uses a walker made of the lent log and the next row." A walker can be made and advanced; the listing holds one.
#![tactic(auto)]

ghost use Rattle.std.specs.Prelude.{◌≡◌};
ghost use Rattle.lines.specs.Lines.{rows_text};
ghost use Rattle.lines.specs.Adds.{Adds};
ghost use Rattle.walker.specs.Walk.{step_at};

use lines::Sink;

// A walker over the rows of a lent log: the log, and the next row.
#[derive(Clone, Copy)]
pub struct Walker<'a> {
    pub log: &'a [u64],
    pub next: usize,
}

// What an advance finds: the row, and the number of the row behind it. At the log's end the row is 0 and the number stays.
// No Option: `step_at` of walker/specs/Walk tells the end by 0 and a number that stays.
#[derive(Clone, Copy)]
pub struct Step {
    pub row: u64,
    pub next: usize,
}

// What stands at row k of the log.
fn step_at(log: &[u64], k: usize) -> Step
    ensures { result ≡ step_at log.now k }
{
    if k < log.len() {
        Step {
            row: log[k],
            next: k + 1,
        }
    } else {
        Step { row: 0, next: k }
    }
}

// A walker that stands before row `next`.
pub fn make<'a>(log: &'a [u64], next: usize) -> Walker<'a>
    ensures { (result.log ≡ log.entry) × (result.next ≡ next) }
{
    Walker { log, next }
}

// The row that the walker stands before; the walker moves behind it. Its log stays.
pub fn advance<'s, 'a>(w: &'s mut Walker<'a>) -> Step
    ensures { (result ≡ step_at w.old.log.now w.old.next)
        × (w.new.log ≡ w.old.log)
        × (w.new.next ≡ result.next) }
{
    let s = step_at(w.log, w.next);
    w.next = s.next;
    s
}

// The lines of all rows behind row 0. One walker goes over the rows.
pub fn list_rows(log: &[u64], out: &mut Sink)
    ensures { Adds (rows_text log.now) out.old out.new }
{
    let mut w = make(log, 1);
    for k in 1..log.len() {
        let s = advance(&mut w);
        out.put_row(k as u64, s.row);
    }
}
