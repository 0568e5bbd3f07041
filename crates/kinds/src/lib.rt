// What the two registers differ in, as far as one processor goes.
#![tactic(auto)]

ghost use Rattle.std.specs.Prelude.{◌≡◌, ℕ, ◌+◌, ◌-◌, ◌*◌, ◌/◌, ◌≤◌, ◌<◌, Bool, ◌++◌, replicate, refl};
ghost use Rattle.words.specs.Index as Pairs;
ghost use Rattle.words.proofs.Laws.Index as PairLaws;
ghost use Rattle.common.specs.Rules.{Rules};
ghost use Rattle.protocol.specs.Rules.{ticket_rules};
ghost use Rattle.counted.specs.Rules.{counted_rules};
ghost use Rattle.counted.specs.Table as Links;
ghost use Rattle.counted.proofs.Table as LinkLaws;
ghost use Rattle.kinds.specs.Rules.{rules_of};
ghost use Rattle.kinds.specs.Words.{ticket_word, no_ticket_word, count_word, no_count_word, ticket_place, ticket_row, counted_row, ticket_rows, counted_rows, ticket_cells, counted_cells};

use common::{Reader, Writer};
use words::stamp::{Stamp, no_stamp};

// A register as code: each function does what its rules say.
pub trait Protocol {
    ghost rules: { Rules };

    // Whether it is the counted register, as a state's head tells it: there it stays a flag, since C reads the head (include/register.h).
    ghost COUNTED: { Bool };

    const COUNTED: bool;

    // Processor i has a cell to processor j, and the cell's place in the table of n readers: a place of the row of i.
    ghost has: { ℕ → ℕ → ℕ → Type 0 };

    ghost place: { ℕ → ℕ → ℕ → ℕ };

    // The same in two: where the row of i starts in the table, and where in that row the cell stands.
    ghost row_start: { ℕ → ℕ → ℕ };

    ghost in_row: { ℕ → ℕ → ℕ };

    // The word of a fresh cell from the writer, of a start value and a fresh stamp, and of any other.
    ghost own_word: { ℕ → ℕ → ℕ };

    ghost other_word: { ℕ → ℕ };

    // The cells that n readers need.
    fn cells(n: u32) -> usize
        ensures { result ≡ rules.cells n };

    // Question 4 of the writer, with n readers.
    fn writer_ok(w: Writer, n: u8) -> bool
        ensures { result ≡ rules.writer_ok n w };

    // Question 4 of one reader, of n.
    fn reader_ok(r: Reader, n: u8) -> bool
        ensures { result ≡ rules.reader_ok n r };

    // Whether a write may begin, as far as its stamp goes.
    fn may_write(w: Writer) -> bool
        ensures { result ≡ rules.may_write w };

    // Where the row of processor i starts, with n readers, and where in it the cell to processor j stands.
    fn row_start(n: u32, i: u32) -> usize
        ensures { result ≡ row_start n i };

    fn in_row(i: u32, j: u32) -> usize
        ensures { result ≡ in_row i j };

    // The words of a fresh register's cells, the writer's and all others.
    fn own_word(value: u32, fresh: u32) -> u64
        ensures { result ≡ own_word value fresh };

    fn other_word(fresh: u32) -> u64
        ensures { result ≡ other_word fresh };

    // The cell's place is one of its row, and of the cells that the table has.
    ghost place_is: { (n i j : ℕ) → row_start n i + in_row i j ≡ place n i j };

    ghost place_low: { (n i j : ℕ) → has n i j → place n i j < rules.cells n };

    // The writer has a cell to each reader.
    ghost own_row: { (n : ℕ) → 1 ≤ n → n ≤ rules.cells n };

    // The cells fall in parts of n: of the first register they are the processors' rows.
    ghost whole_rows: { (n : ℕ) → n * (rules.cells n / n) ≡ rules.cells n };

    // By what a state's head tells, these are the rules.
    ghost kind_is: { COUNTED ≡ rules.counted };

    ghost of_kind: { rules_of rules.counted ≡ rules };

    // The fresh cells of n readers: the writer's first.
    ghost fresh_are: { (n v f : ℕ) → replicate n (own_word v f) ++ replicate (rules.cells n - n) (other_word f) ≡ rules.fresh_cells n v f };
}

// The first register: stamps of two tickets.
pub struct Tickets;

impl Protocol for Tickets {
    ghost rules = { ticket_rules };

    ghost COUNTED = { Bool.false };

    const COUNTED: bool = false;

    ghost has = { Pairs.Pair };

    ghost place = { Pairs.index };

    ghost row_start = { Pairs.row_start };

    ghost in_row = { Pairs.in_row };

    ghost own_word = { ticket_word };

    ghost other_word = { no_ticket_word };

    fn cells(n: u32) -> usize {
        let m = n as usize;
        m * m + m
    }

    fn writer_ok(w: Writer, n: u8) -> bool {
        writer::state::writer_ok(w, n)
    }

    fn reader_ok(r: Reader, n: u8) -> bool {
        reader::reader_ok(r, n)
    }

    fn may_write(_w: Writer) -> bool {
        true
    }

    fn row_start(n: u32, i: u32) -> usize {
        words::index::row_start(n, i)
    }

    fn in_row(i: u32, j: u32) -> usize {
        words::index::in_row(i, j)
    }

    fn own_word(value: u32, _fresh: u32) -> u64 {
        u64::from(words::cell::Cell {
            value,
            stamp: Stamp { cur: 0, prev: 1 },
            announced: no_stamp(),
        })
    }

    fn other_word(_fresh: u32) -> u64 {
        u64::from(words::cell::Cell {
            value: 0,
            stamp: no_stamp(),
            announced: no_stamp(),
        })
    }

    ghost place_is = { ticket_place };

    ghost place_low = { PairLaws.index_low };

    ghost own_row = { ticket_row };

    ghost whole_rows = { ticket_rows };

    ghost kind_is = { refl };

    ghost of_kind = { refl };

    ghost fresh_are = { ticket_cells };
}

// The counted register: stamps that count the writes.
pub struct Counting;

impl Protocol for Counting {
    ghost rules = { counted_rules };

    ghost COUNTED = { Bool.true };

    const COUNTED: bool = true;

    ghost has = { Links.Link };

    ghost place = { Links.index };

    ghost row_start = { Links.row_start };

    ghost in_row = { Links.in_row };

    ghost own_word = { count_word };

    ghost other_word = { no_count_word };

    fn cells(n: u32) -> usize {
        let m = n as usize;
        m * m
    }

    fn writer_ok(w: Writer, n: u8) -> bool {
        parts::writing::writer_ok(w, n)
    }

    fn reader_ok(r: Reader, n: u8) -> bool {
        parts::reading::reader_ok(r, n)
    }

    fn may_write(w: Writer) -> bool {
        parts::writing::may_write(w)
    }

    fn row_start(n: u32, i: u32) -> usize {
        parts::places::row_start(n, i)
    }

    fn in_row(i: u32, j: u32) -> usize {
        parts::places::in_row(i, j)
    }

    fn own_word(value: u32, fresh: u32) -> u64 {
        u64::from(counted::Cell {
            value,
            stamp: fresh,
        })
    }

    fn other_word(fresh: u32) -> u64 {
        u64::from(counted::Cell {
            value: 0,
            stamp: fresh,
        })
    }

    ghost place_is = { λ n i j. refl };

    ghost place_low = { LinkLaws.index_low };

    ghost own_row = { counted_row };

    ghost whole_rows = { counted_rows };

    ghost kind_is = { refl };

    ghost of_kind = { refl };

    ghost fresh_are = { counted_cells };
}
