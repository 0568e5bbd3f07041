// Cells of the table.
ghost use Rattle.std.specs.Prelude.{◌≡◌};
ghost use Rattle.words.specs.Cell.{pack_cell, unpack_cell};

use super::stamp::Stamp;

// What one processor shows another: a value with its stamp, and, to the writer, the stamp it has announced.
#[derive(Clone, Copy, Debug, PartialEq, Eq)]
pub struct Cell {
    pub value: u32,
    pub stamp: Stamp,
    pub announced: Stamp,
}

// The cell as a word.
impl From<Cell> for u64 {
    ghost from_gives = { λ c word. word ≡ pack_cell c };

    #[tactic(auto, unfolding(crate::specs::Cell::pack_cell))]
    fn from(c: Cell) -> u64 {
        let stamp = (c.stamp.cur % 64) as u64 * 67108864 + (c.stamp.prev % 64) as u64 * 1048576;
        let announced = (c.announced.cur % 64) as u64 * 16384
            + (c.announced.prev % 64) as u64 * 256;
        c.value as u64 * 4294967296 + stamp + announced
    }
}

// The cell in a word.
impl From<u64> for Cell {
    ghost from_gives = { λ word c. c ≡ unpack_cell word };

    #[tactic(auto, unfolding(crate::specs::Cell::unpack_cell))]
    fn from(word: u64) -> Cell {
        let stamp = Stamp {
            cur: (word / 67108864 % 64) as u8,
            prev: (word / 1048576 % 64) as u8,
        };
        let announced = Stamp {
            cur: (word / 16384 % 64) as u8,
            prev: (word / 256 % 64) as u8,
        };
        Cell {
            value: (word / 4294967296 % 4294967296) as u32,
            stamp,
            announced,
        }
    }
}
