// Question 4 of one reader.
ghost use Rattle.std.specs.Prelude.{◌≡◌};
ghost use Rattle.counted.specs.State.{reader_ok};

use common::Reader;

// Whether a reader is in range, of n.
#[tactic(auto, unfolding(counted::specs::State::reader_ok))]
pub fn reader_ok(r: Reader, n: u8) -> bool
    ensures { result ≡ reader_ok n r }
{
    !r.active || r.moved as u32 + 1 < 2 * n as u32
}
