// The judge's answers. What each means and how an order is found are definitions in specs/; in proofs/ it is shown that the order found is the
// one that is meant. The code is the crate `judge`.
#![tactic(auto)]

ghost use Rattle.std.specs.Prelude.{◌≡◌};
ghost use Rattle.judging.specs.Answer.{refusal};

// Why the judge refuses a log.
#[derive(Clone, Copy, Debug, PartialEq, Eq)]
pub enum Fault {
    // It has no rows, or more than 4,096.
    WrongLength,
    // Its rows are not well formed.
    Malformed,
    // There are fewer places than begin rows.
    NoRoom,
    // It has no order: the begin row of the first read with which it has none.
    NoOrder(usize),
}

impl Fault {
    // The number of the question that is answered no.
    pub fn number(self) -> u32
        ensures { result ≡ (refusal self).number }
    {
        match self {
            Fault::WrongLength => 9,
            Fault::Malformed => 10,
            Fault::NoRoom => 11,
            Fault::NoOrder(_) => 12,
        }
    }
}
