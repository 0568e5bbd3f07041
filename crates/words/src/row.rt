// Rows of the log.
ghost use Rattle.std.specs.Prelude.{◌≡◌};
ghost use Rattle.words.specs.Row.{pack_row, unpack_row};

// An event of the history: what happened, to whose operation, with which value.
#[derive(Clone, Copy, Debug, PartialEq, Eq)]
pub struct Row {
    pub kind: u8,
    pub processor: u8,
    pub value: u32,
}

// The row as a word.
impl From<Row> for u64 {
    ghost from_gives = { λ r word. word ≡ pack_row r };

    #[tactic(auto, unfolding(crate::specs::Row::pack_row))]
    fn from(r: Row) -> u64 {
        (r.kind % 16) as u64 * 1152921504606846976
            + r.processor as u64 * 4503599627370496
            + r.value as u64
    }
}

// The row in a word.
impl From<u64> for Row {
    ghost from_gives = { λ word r. r ≡ unpack_row word };

    fn from(word: u64) -> Row {
        Row {
            kind: (word / 1152921504606846976 % 16) as u8,
            processor: (word / 4503599627370496 % 256) as u8,
            value: (word % 4294967296) as u32,
        }
    }
}
