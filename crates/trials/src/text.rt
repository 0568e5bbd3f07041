// What is printed.
use std::{fmt, io};

// An answer's word: above, the refusal number or 0; below, the sub-step's number or 0.
#[derive(Clone, Copy)]
pub(crate) struct Answer(pub u64);

impl Answer {
    // The refusal number, if it is one.
    pub(crate) fn refusal(self) -> Option<u64> {
        match self.0 / 4294967296 {
            0 => None,
            number => Some(number),
        }
    }
}

impl fmt::Display for Answer {
    fn fmt<W: fmt::Write>(&self, f: &mut fmt::Formatter<W>) -> fmt::Result {
        let word = self.0;
        match self.refusal() {
            Some(number) => write!(f, "refused {number}"),
            None if word != 0 => write!(f, "sub-step {word}"),
            None => write!(f, "accepted"),
        }
    }
}

// Rows in hexadecimal.
pub(crate) fn print_rows(rt: &impl Print, rows: &[u64]) -> io::Result<()> {
    for row in rows {
        print!(rt; " {row:016x}")?;
    }
    Ok(())
}

// The begin rows of an order.
pub(crate) fn print_order(rt: &impl Print, order: &[u64]) -> io::Result<()> {
    print!(rt; "order")?;
    for begin in order {
        print!(rt; " {begin}")?;
    }
    Ok(())
}
