// A fresh reader, one that begins a read, one that is retired, and question 4 of one reader. They are functions, as document PROMISES names
// `as_counted` and `retire_reader`; question 4's definitions stand in protocol, above the type's crate.
#![tactic(auto)]

ghost use Rattle.std.specs.Prelude.{◌≡◌};
ghost use Rattle.common.specs.State.{as_counted, reader_begins, retires};
ghost use Rattle.common.specs.SetUp.{fresh_reader};
ghost use Rattle.protocol.specs.State.{span_ok, open_read_ok, reader_ok};

use common::Reader;
use words::stamp::{in_range, no_stamp};

// The reader of a fresh register of either kind: it has no stamp of its own yet.
pub fn fresh_reader() -> Reader
    ensures { result ≡ fresh_reader }
{
    Reader {
        retired: false,
        active: false,
        second: false,
        moved: 0,
        stamp: no_stamp(),
        look: 0,
        agree: false,
        found: false,
        result: 0,
    }
}

// A read begins, in a register of either kind.
pub fn open_reader(r: Reader) -> Reader
    ensures { result ≡ reader_begins r }
{
    let nothing_met = 0;
    Reader {
        active: true,
        second: false,
        moved: 0,
        result: nothing_met,
        ..r
    }
}

// A reader of either kind is retired.
pub fn retire_reader(r: Reader) -> Reader
    ensures { result ≡ retires r }
{
    Reader { retired: true, ..r }
}

// A reader of either kind as questions 4 and 7 see it: the read of one that is retired counts as open no longer.
pub fn as_counted(r: Reader) -> Reader
    ensures { result ≡ as_counted r }
{
    Reader {
        active: !r.retired && r.active,
        ..r
    }
}

// The words moved by an open read.
fn span_ok(second: bool, moved: u8, n: u8) -> bool
    ensures { result ≡ span_ok n second moved }
{
    let k = moved as u32;
    let m = n as u32;
    if second {
        m + 3 <= k && k <= 3 * m + 5
    } else {
        k <= 2 * m + 2
    }
}

fn open_read_ok(r: Reader, n: u8) -> bool
    ensures { result ≡ open_read_ok n r }
{
    !r.active || span_ok(r.second, r.moved, n)
}

// Whether a reader is in range, of n.
#[tactic(auto, unfolding(protocol::specs::State::reader_ok))]
pub fn reader_ok(r: Reader, n: u8) -> bool
    ensures { result ≡ reader_ok n r }
{
    in_range(r.stamp) && open_read_ok(r, n)
}
