// Stamps.
ghost use Rattle.std.specs.Prelude.{◌≡◌};
ghost use Rattle.words.specs.Stamp.{none, same, stamp_ok};

// A write's own ticket and that of the write before.
#[repr(C)]
#[derive(Clone, Copy, Debug, PartialEq, Eq)]
pub struct Stamp {
    pub cur: u8,
    pub prev: u8,
}

// The stamp of what has none.
pub fn no_stamp() -> Stamp
    ensures { result ≡ none }
{
    Stamp { cur: 63, prev: 63 }
}

// Whether two stamps are equal.
pub fn equal(a: Stamp, b: Stamp) -> bool
    ensures { result ≡ same a b }
{
    a == b
}

// Whether both tickets fit a cell.
pub fn in_range(s: Stamp) -> bool
    ensures { result ≡ stamp_ok s }
{
    s.cur < 64 && s.prev < 64
}
