// The figures of a drill before it is run, and what the program `sizing` prints of them.
#![tactic(auto)]

pub mod print; // the input and the whole print

ghost use Rattle.std.specs.Prelude.{◌≡◌, ◌≤◌};
ghost use Rattle.figures.specs.Meaning.{Says};
ghost use Rattle.figures.specs.Sizing.{rows_for, write_words, read_words, second_words, least_words, most_words, size_of, sizing_reply};

use figures::{Figures, NoFigures};

// A drill that has figures, if its log is not too long: whether it is of the counted register, its readers, writes and reads. Which register is a
// flag, as in `size_of` of figures/specs/Sizing.
#[derive(Clone, Copy)]
struct Drill {
    counted: bool,
    n: u32,
    writes: u32,
    reads: u32,
    ghost in_range: { (1 ≤ n) × (n ≤ 16) × (writes ≤ 2000) × (reads ≤ 2000) },
}

impl Drill {
    // Row 0, and two rows for each operation; set-up takes no fewer than 3.
    #[tactic(auto, unfolding(figures::specs::Sizing::rows_for))]
    fn rows(self) -> u32
        ensures { result ≡ rows_for self.writes self.reads }
    {
        (2 * (self.writes + self.reads) + 1).max(3)
    }

    // The words of a write.
    #[tactic(auto, unfolding(figures::specs::Sizing::write_words))]
    fn write_words(self) -> u32
        ensures { result ≡ write_words self.counted self.n }
    {
        if self.counted { self.n } else { 2 * self.n }
    }

    // Those of a read without a second attempt.
    #[tactic(auto, unfolding(figures::specs::Sizing::read_words))]
    fn read_words(self) -> u32
        ensures { result ≡ read_words self.counted self.n }
    {
        if self.counted {
            2 * self.n - 1
        } else {
            2 * self.n + 3
        }
    }

    // Those that a second attempt adds.
    #[tactic(auto, unfolding(figures::specs::Sizing::second_words))]
    fn second_words(self) -> u32
        ensures { result ≡ second_words self.counted self.n }
    {
        if self.counted { 0 } else { self.n + 3 }
    }

    // The words if no read has a second attempt.
    #[tactic(auto, unfolding(figures::specs::Sizing::write_words, figures::specs::Sizing::read_words, figures::specs::Sizing::least_words))]
    fn least_words(self) -> u32
        ensures { result ≡ least_words self.counted self.n self.writes self.reads }
    {
        self.write_words() * self.writes + self.read_words() * self.reads
    }

    // The words if as many reads have one as can.
    #[tactic(auto, unfolding(figures::specs::Sizing::second_words, figures::specs::Sizing::most_words))]
    fn most_words(self) -> u32
        ensures { result ≡ most_words self.counted self.n self.writes self.reads }
    {
        let least = self.least_words();
        least + self.second_words() * self.reads.min(self.n * self.writes)
    }
}

// The figures of a drill of n readers, of the counted register or of the first one.
#[tactic(auto, unfolding(figures::specs::Sizing::size_of))]
pub fn size_of(counted: bool, n: u32, writes: u32, reads: u32) -> Result<Figures, NoFigures>
    ensures answer { result ≡ size_of counted n writes reads }
    ensures reply { sizing_reply result ≡ sizing_reply (size_of counted n writes reads) }
    ensures meaning { Says counted n writes reads result }
{
    if n < 1 || 16 < n {
        return Err(NoFigures::Refused);
    }
    if 2000 < writes || 2000 < reads {
        return Err(NoFigures::Larger);
    }
    let drill = Drill {
        counted,
        n,
        writes,
        reads,
    };
    let rows = drill.rows();
    if 4096 < rows {
        return Err(NoFigures::TooLong);
    }
    Ok(Figures {
        rows,
        least: drill.least_words(),
        most: drill.most_words(),
    })
}
