// Calls, and the words that tell them.
ghost use Rattle.std.specs.Prelude.{◌≡◌, true, false, MatchOption};
ghost use Rattle.common.specs.CallWords.{is_call, call_in};

// A begin of a write, with its value; a begin of a read, a sub-step or a retirement, with its processor.
#[derive(Clone, Copy, Debug, PartialEq, Eq)]
pub enum Call {
    Write(u32),
    Read(u32),
    Step(u32),
    Retire(u32),
}

impl Call {
    // The call in a word, if it is a call's: its kind stands in the upper half, its number in the lower.
    pub fn from_word(word: u64) -> Option<Call>
        ensures { MatchOption result (is_call word ≡ false) (λ c. (is_call word ≡ true) × (c ≡ call_in word)) }
    {
        let number = (word % 4294967296) as u32;
        match word / 4294967296 {
            1 => Some(Call::Write(number)),
            2 => Some(Call::Read(number)),
            3 => Some(Call::Step(number)),
            4 => Some(Call::Retire(number)),
            _ => None,
        }
    }
}
