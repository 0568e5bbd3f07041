// Answers as words.
ghost use Rattle.std.specs.Prelude.{◌≡◌, ◌≤◌};
ghost use Rattle.common.specs.Answers.{refusal_number};
ghost use Rattle.common.specs.CallWords.{answer_word};

use super::{Done, Refusal};

// Document 01's number of a refusal.
impl From<Refusal> for u64 {
    ghost from_gives = { λ r number. (number ≡ refusal_number r) × (number ≤ 14) };

    fn from(r: Refusal) -> u64 {
        match r {
            Refusal::Readers => 1,
            Refusal::Cells => 2,
            Refusal::Rows => 3,
            Refusal::Range => 4,
            Refusal::Processor => 5,
            Refusal::Busy => 6,
            Refusal::Full => 7,
            Refusal::Idle => 8,
            Refusal::Retired => 13,
            Refusal::Spent => 14,
        }
    }
}

// An answer's word. A function, since neither Result nor u64 is a type of this crate.
pub fn answer_word(a: Result<Done, Refusal>) -> u64
    ensures { result ≡ answer_word a }
{
    match a {
        Ok(Done::Accepted) => 0,
        Ok(Done::Moved(k)) => k as u64,
        Err(r) => u64::from(r) * 4294967296,
    }
}
