// The cells that a read stores, and its end.
ghost use Rattle.std.specs.Prelude.{◌≡◌};
ghost use Rattle.protocol.specs.Table.{plain};
ghost use Rattle.protocol.specs.Read.{read_ends, announcing, showing};

use super::{stamp_in, value_in};
use common::Reader;
use words::cell::Cell;
use words::stamp::{Stamp, equal, no_stamp};

// The read is over: the result's stamp is the reader's own.
pub fn ends(r: Reader) -> Reader
    ensures { result ≡ read_ends r }
{
    Reader {
        active: false,
        stamp: stamp_in(r.result),
        ..r
    }
}

// The cell to the writer that announces the first look's stamp.
pub fn announcement(own: Stamp, word: u64) -> Cell
    ensures { result ≡ announcing own word }
{
    Cell {
        value: 0,
        stamp: own,
        announced: stamp_in(word),
    }
}

// A cell that announces nothing.
pub fn plain_cell(value: u32, stamp: Stamp) -> Cell
    ensures { result ≡ plain value stamp }
{
    Cell {
        value,
        stamp,
        announced: no_stamp(),
    }
}

// The cell that shows a result to another reader.
pub fn shown(word: u64) -> Cell
    ensures { result ≡ showing word }
{
    let stamp = stamp_in(word);
    let value = if equal(stamp, no_stamp()) {
        0
    } else {
        value_in(word)
    };
    plain_cell(value, stamp)
}
