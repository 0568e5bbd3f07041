// The counted register: the protocol of section 2 of report CS-R8758, whose stamps count the writes. Its cells here, its rules and its book
// in specs/, and in proofs/ that every log of it has an order.
#![tactic(auto)]

ghost use Rattle.std.specs.Prelude.{◌≡◌};
ghost use Rattle.counted.specs.Cell.{pack_cell, unpack_cell};

// What one processor shows another: a value with its stamp.
#[derive(Clone, Copy, Debug, PartialEq, Eq)]
pub struct Cell {
    pub value: u32,
    pub stamp: u32,
}

// The cell as a word.
impl From<Cell> for u64 {
    ghost from_gives = { λ c word. word ≡ pack_cell c };

    #[tactic(auto, unfolding(crate::specs::Cell::pack_cell))]
    fn from(c: Cell) -> u64 {
        c.value as u64 * 4294967296 + c.stamp as u64
    }
}

// The cell in a word.
impl From<u64> for Cell {
    ghost from_gives = { λ word c. c ≡ unpack_cell word };

    #[tactic(auto, unfolding(crate::specs::Cell::unpack_cell))]
    fn from(word: u64) -> Cell {
        Cell {
            value: (word / 4294967296 % 4294967296) as u32,
            stamp: (word % 4294967296) as u32,
        }
    }
}
