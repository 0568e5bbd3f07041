// The judge of rows and of bytes.
use super::marks::{marks, written};
use super::text::print_order;
use judge::bytes::judge_bytes;
use judge::rows::judge;
use judging::Fault;
use std::io;

fn print_verdict(rt: &impl Print, verdict: Result<usize, Fault>, order: &[u64]) -> io::Result<()> {
    match verdict {
        Ok(n) => print_order(rt, &order[..n.min(order.len())]),
        Err(Fault::NoOrder(row)) => print!(rt; "refused 12 with row {row}"),
        Err(fault) => {
            let number = fault.number();
            print!(rt; "refused {number}")
        }
    }
}

// What the judge of bytes says of the first bytes of at most 4,097 rows.
fn number_of(rows: &[u64], count: usize) -> u32 {
    let mut bytes = [0u8; 32776];
    for (eight, row) in bytes.chunks_exact_mut(8).zip(rows) {
        eight.copy_from_slice(&row.to_be_bytes());
    }
    judge_bytes(&bytes[..count.min(32776)])
}

pub(crate) fn try_bytes(rt: &impl Print, rows: &[u64], count: usize) -> io::Result<()> {
    let number = number_of(rows, count);
    print!(rt; "{number}")
}

// Has a log judged, with so many places for the order; prints the verdict, how many places were written of an order of marks, and what the
// judge of bytes says.
pub(crate) fn try_log(rt: &impl Print, rows: &[u64], places: usize) -> io::Result<()> {
    let mut room = marks();
    let order = &mut room[..places.min(4097)];
    let verdict = judge(rows, order);
    print!(rt; ": ")?;
    print_verdict(rt, verdict, order)?;
    let places = written(order);
    print!(rt; ", places written {places}, bytes ")?;
    try_bytes(rt, rows, rows.len().min(4097) * 8)
}
