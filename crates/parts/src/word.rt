// The larger stamp of two words.
ghost use Rattle.std.specs.Prelude.{◌≡◌};
ghost use Rattle.counted.specs.Steps.{larger};

use counted::Cell;

// The word with the larger stamp; the first, if they are equal.
#[tactic(auto, unfolding(counted::specs::Steps::larger))]
pub fn larger_of(a: u64, b: u64) -> u64
    ensures { result ≡ larger a b }
{
    if Cell::from(a).stamp < Cell::from(b).stamp {
        b
    } else {
        a
    }
}
