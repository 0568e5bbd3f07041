// The judge of rows.
ghost use Rattle.std.specs.Prelude.{◌≡◌, ◌<◌, ◌≤◌, ◌^◌, ltb, length, get_or};
ghost use Rattle.words.specs.Bits.{low};
ghost use Rattle.history.specs.Listing.{listing};
ghost use Rattle.judging.specs.Answer.{right_length, count_after, begins_to, answer, unlisted, answer_word, settled_of, answer_of, order_of, number_of};
ghost use Rattle.judging.specs.Keys.{Put};
ghost use Rattle.judging.specs.Meaning.{Means};

use super::formed::well_formed;
use super::order::{decode_all, put_keys};
use super::row::is_begin;
use super::sweep::first_missing;
use judging::Fault;

// Question 9.
pub fn right_length(n: usize) -> bool
    ensures { result ≡ right_length n }
{
    1 <= n && n <= 4096
}

// One more, if the row is a begin.
fn count_after(row: u64, n: usize) -> usize
    requires { n < 2 ^ 63 }
    ensures { result ≡ count_after row n }
{
    if is_begin(row) { n + 1 } else { n }
}

// The number of begin rows.
fn count_begins(rows: &[u64]) -> usize
    requires { 1 ≤ length rows.now }
    ensures { result ≡ begins_to rows.now (length rows.now) }
{
    let mut n = 0;
    for row in &rows[1..] {
        n = count_after(*row, n);
    }
    n
}

// Whether there are fewer places than begin rows. As many places as rows are enough, and then nothing is counted.
fn lacks_room(rows: &[u64], places: usize) -> bool
    requires { 1 ≤ length rows.now }
    ensures { result ≡ ltb places (begins_to rows.now (length rows.now)) }
{
    places < rows.len() && places < count_begins(rows)
}

// Questions 9 to 12, of the rows and the number of places: a fault, if one is answered no.
// No place is lent here, so that all is settled before one is written.
pub fn settle(rows: &[u64], places: usize) -> Result<(), Fault>
    ensures { unlisted result ≡ settled_of rows.now places }
{
    if !right_length(rows.len()) {
        return Err(Fault::WrongLength);
    }
    if !well_formed(rows) {
        return Err(Fault::Malformed);
    }
    if lacks_room(rows, places) {
        return Err(Fault::NoRoom);
    }
    match first_missing(rows) {
        Some(row) => Err(Fault::NoOrder(row)),
        None => Ok(()),
    }
}

// Writes the order of a log that has one, and gives the number of its operations.
fn write_order(rows: &[u64], order: &mut [u64]) -> usize
    requires { (settled_of rows.now (length order.old)).number ≡ 0 }
    ensures { Put (listing rows.now) order.old order.new result }
{
    let count = put_keys(rows, order);
    decode_all(order, count);
    count
}

// The verdict, and the order in the lent places: of how many operations it is, or why there is none.
pub fn judge(rows: &[u64], order: &mut [u64]) -> Result<usize, Fault>
    ensures answer { answer result ≡ answer_of rows.now (length order.old) }
    ensures order { order.new ≡ order_of rows.now order.old }
    ensures meaning { Means rows.now order.old order.new result }
{
    // Not `?`, which calls functions of its own: theorem `settles_first`.
    match settle(rows, order.len()) {
        Ok(()) => Ok(write_order(rows, order)),
        Err(fault) => Err(fault),
    }
}

// The number of the question that is answered no, or 0.
fn number_of<T: Drop>(found: Result<T, Fault>) -> u32
    ensures { result ≡ (unlisted found).number }
{
    match found {
        Ok(_) => 0,
        Err(fault) => fault.number(),
    }
}

// That number without an order buffer: as many places as rows are enough.
pub(crate) fn number(rows: &[u64]) -> u32
    ensures { result ≡ number_of rows.now }
{
    number_of(settle(rows, rows.len()))
}

// The value of a verdict, the order's length or the begin row, or 0; its lower half.
fn value_of(verdict: Result<usize, Fault>) -> u64
    ensures { result ≡ low 32 (get_or (answer verdict).values 0 0) }
{
    match verdict {
        Ok(n) | Err(Fault::NoOrder(n)) => n as u64 % 4294967296,
        Err(_) => 0,
    }
}

// The verdict as a word, and the order in the lent places, for a host in C.
pub fn judge_rows(rows: &[u64], order: &mut [u64]) -> u64
    ensures word { result ≡ answer_word (answer_of rows.now (length order.old)) }
    ensures order { order.new ≡ order_of rows.now order.old }
{
    let verdict = judge(rows, order);
    number_of(verdict) as u64 * 4294967296 + value_of(verdict)
}
