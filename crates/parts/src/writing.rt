// The writer: question 4, and whether a stamp is left for it.
ghost use Rattle.std.specs.Prelude.{◌≡◌, ltb};
ghost use Rattle.counted.specs.State.{last_stamp, writer_ok};

use common::Writer;

// The last stamp that there is.
const LAST_STAMP: u32 = u32::MAX;

// Whether a write may begin: its stamp is one more than the last ended write's.
pub fn may_write(w: Writer) -> bool
    ensures { result ≡ ltb w.count last_stamp }
{
    w.count < LAST_STAMP
}

// Whether the writer is in range, with n readers.
#[tactic(auto, unfolding(counted::specs::State::writer_ok))]
pub fn writer_ok(w: Writer, n: u8) -> bool
    ensures { result ≡ writer_ok n w }
{
    !w.active || w.moved < n && may_write(w)
}
