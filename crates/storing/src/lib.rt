// Logs stored in strips: what is stored, what is put back, and the answers, as definitions in specs/; in proofs/ it is shown that the strips put
// back are the log. The code is the crate `store`.
#![tactic(auto)]

ghost use Rattle.std.specs.Prelude.{◌≡◌};
ghost use Rattle.storing.specs.Answer.{fault_number};

// Why a log is not stored, or not put back.
#[derive(Clone, Copy, Debug, PartialEq, Eq)]
pub enum Fault {
    // The log has no rows, or more than 4,096.
    WrongLength,
    // Its rows are not well formed.
    Malformed,
    // Too few places were lent.
    NoRoom,
    // The bytes and the rows of the strips do not match.
    Unmatched,
}

impl Fault {
    // The papers' number of the question that is answered no.
    pub fn number(self) -> u32
        ensures { result ≡ fault_number self }
    {
        match self {
            Fault::WrongLength => 9,
            Fault::Malformed => 10,
            Fault::NoRoom => 11,
            Fault::Unmatched => 16,
        }
    }
}
