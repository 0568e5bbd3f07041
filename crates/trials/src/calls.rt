// How a call is printed. A type of its own: `Call` and `Display` are other crates'. What is no call was written as a retirement.
use common::calls::Call;
use std::fmt;

#[derive(Clone, Copy)]
pub(crate) struct Shown(pub Option<Call>);

impl fmt::Display for Shown {
    fn fmt<W: fmt::Write>(&self, f: &mut fmt::Formatter<W>) -> fmt::Result {
        match self.0 {
            Some(Call::Write(value)) => write!(f, "W {value}"),
            Some(Call::Read(p)) => write!(f, "R {p}"),
            Some(Call::Step(p)) => write!(f, "S {p}"),
            Some(Call::Retire(p)) => write!(f, "U {p}"),
            None => write!(f, "U 0"),
        }
    }
}
