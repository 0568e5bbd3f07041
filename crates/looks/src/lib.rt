// A reader of the first register, by value: what each word that it reads makes of it, and the cells that it stores.
#![tactic(auto)]

ghost use Rattle.std.specs.Prelude.{◌≡◌};
ghost use Rattle.words.specs.Stamp.{none};
ghost use Rattle.words.specs.Cell.{pack_cell};
ghost use Rattle.common.specs.State.{value_in};
ghost use Rattle.protocol.specs.Table.{plain};
ghost use Rattle.protocol.specs.Read.{stamp_in, looks_first, looks_again, looks_at_other, looks_third};

use common::Reader;
use result::plain_cell;
use words::cell::Cell;
use words::stamp::{Stamp, equal, no_stamp};

pub mod result; // the cells that a read stores, and its end

// The stamp in a cell's word.
pub fn stamp_in(word: u64) -> Stamp
    ensures { result ≡ stamp_in word }
{
    Cell::from(word).stamp
}

// The value that a cell's word shows, in either register.
pub fn value_in(word: u64) -> u32
    ensures { result ≡ value_in word }
{
    (word / 4294967296 % 4294967296) as u32
}

// The writer's cell, for the first time.
pub fn looks_first(r: Reader, word: u64) -> Reader
    ensures { result ≡ looks_first r word }
{
    Reader {
        look: word,
        agree: true,
        found: false,
        ..r
    }
}

// The writer's cell, for the second time.
pub fn looks_again(r: Reader, word: u64) -> Reader
    ensures { result ≡ looks_again r word }
{
    Reader {
        agree: equal(stamp_in(r.look), stamp_in(word)),
        ..r
    }
}

// Another reader's cell: the first whose prev is the first look's cur is kept.
pub fn looks_at_other(r: Reader, word: u64) -> Reader
    ensures { result ≡ looks_at_other r word }
{
    if !r.found && stamp_in(word).prev == stamp_in(r.look).cur {
        Reader {
            found: true,
            result: word,
            ..r
        }
    } else {
        r
    }
}

// The word of a result with stamp none.
fn unstamped(word: u64) -> u64
    ensures { result ≡ pack_cell (plain (value_in word) none) }
{
    u64::from(plain_cell(value_in(word), no_stamp()))
}

// The writer's cell, for the third time: it decides.
pub fn looks_third(r: Reader, word: u64) -> Reader
    ensures { result ≡ looks_third r word }
{
    let same = equal(stamp_in(r.look), stamp_in(word));
    if !(r.agree && same) {
        return Reader {
            second: true,
            result: unstamped(r.look),
            ..r
        };
    }
    if r.found {
        r
    } else {
        Reader { result: word, ..r }
    }
}
