// What is done in a trial: acts, each of four numbers, the kind and up to three more.
//   1 to 4    W, R, S and U with a number; then 1 if the state stays as it was for the next call, 2 if the call is not printed
//   5         lends so many cells of the table and rows of the log, which hold marks
//   6, 7      set-up with so many readers, of the counted register with a fresh stamp, and start reading 7; last 1 if it is printed
//   8         a field of processor p is changed, see `changes`
//   9, 10     a cell of the table, a row of the log, by its place and its halves
//   11        prints the cells
//   12        the judge's verdict on the rows that are used, which are printed if there is a 1
//   13        the judge's verdict on so many rows, with so many places for the order
//   14        what the judge of bytes says of so many bytes
use common::calls::Call;

// The register of a set-up; the counted one has a fresh stamp.
#[derive(Clone, Copy)]
pub(crate) enum Kind {
    Tickets,
    Counted { fresh: u32 },
}

// What is looked at.
#[derive(Clone, Copy)]
pub(crate) enum Look {
    Cells,
    Used { are_printed: bool },
    First { rows: usize, places: usize },
    Bytes { count: usize },
}

// An act. The numbers are what a trial is written in; they are read once, below.
#[derive(Clone, Copy)]
pub(crate) enum Act {
    Call {
        call: Option<Call>,
        state_stays: bool,
        is_printed: bool,
    },
    Lend {
        cells: usize,
        rows: usize,
    },
    SetUp {
        kind: Kind,
        n: u32,
        is_printed: bool,
    },
    Change {
        p: u64,
        field: u64,
        value: u64,
    },
    PutCell {
        at: usize,
        word: u64,
    },
    PutRow {
        at: usize,
        word: u64,
    },
    Look(Look),
}

// The low half of a number.
fn low(number: u64) -> u32 {
    (number % 4294967296) as u32
}

// A call by its word. What is no number is one more than a number's largest, so a begin of a read by it is the word of a sub-step by 0, and a
// retirement of it is no call's.
fn call(word: u64, how: u64) -> Act {
    Act::Call {
        call: Call::from_word(word),
        state_stays: how == 1,
        is_printed: how != 2,
    }
}

fn set_up(kind: Kind, n: u32, printed: u64) -> Act {
    Act::SetUp {
        kind,
        n,
        is_printed: printed == 1,
    }
}

// What the acts from 11 on look at.
fn read_look(kind: u64, a: u64, b: u64) -> Look {
    match kind {
        11 => Look::Cells,
        12 => Look::Used {
            are_printed: a == 1,
        },
        13 => Look::First {
            rows: a as usize,
            places: b as usize,
        },
        _ => Look::Bytes { count: a as usize },
    }
}

impl Act {
    // The act that four numbers say; none if the first is 0.
    pub(crate) fn read(numbers: &[u64]) -> Option<Act> {
        let [kind, a, b, c] = *numbers else {
            return None;
        };
        let at = a as usize;
        let word = (b << 32) | c;
        let fresh = low(b);
        let act = match kind {
            0 => return None,
            1..=4 => call((kind << 32) | a, b),
            5 => Act::Lend {
                cells: at,
                rows: b as usize,
            },
            6 => set_up(Kind::Tickets, low(a), c),
            7 => set_up(Kind::Counted { fresh }, low(a), c),
            8 => Act::Change {
                p: a,
                field: b,
                value: c,
            },
            9 => Act::PutCell { at, word },
            10 => Act::PutRow { at, word },
            _ => Act::Look(read_look(kind, a, b)),
        };
        Some(act)
    }
}
