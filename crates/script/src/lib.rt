// The calls of the input.
#![tactic(auto)]

ghost use Rattle.std.specs.Prelude.{◌≡◌, ◌+◌, ◌<◌, MatchOption};
ghost use Rattle.fields.specs.Fields.{place_of};
ghost use Rattle.script.specs.Script.{kind_in, call_in, call_from, Reads};

use fields::{number_in, place_of};

// How many calls were read, and the place behind their lines.
#[derive(Clone, Copy)]
pub struct Script {
    pub calls: usize,
    pub end: usize,
}

// The kind of a call by its letter.
#[tactic(auto, unfolding(crate::specs::Script::kind_in))]
fn kind_in(letter: u8) -> Option<u64>
    ensures { MatchOption result (kind_in letter ≡ 0) (λ kind. (kind ≡ kind_in letter) × (0 < kind) × (kind < 4)) }
{
    match letter {
        b'W' => Some(1),
        b'R' => Some(2),
        b'S' => Some(3),
        _ => None,
    }
}

// The call of a line as a word. Words, not `common::calls::Call`: this crate stands below `common`.
#[tactic(auto, using(fields::proofs::FieldLaws::number_rest), unfolding(crate::specs::Script::call_in))]
pub fn call_in(line: &[u8]) -> Option<u64>
    ensures { MatchOption result (call_in line.now ≡ 0) (λ call. (call ≡ call_in line.now) × (0 < call)) }
{
    let [letter, space, text @ ..] = line else {
        return None;
    };
    if *space != b' ' {
        return None;
    }
    let kind = kind_in(*letter)?;
    let number = number_in(text)?;
    Some(kind * 4294967296 + u64::from(number))
}

// The call of the line from a place on as a word, and the place behind that line.
#[tactic(auto, using(fields::proofs::FieldLaws::place_from), unfolding(crate::specs::Script::call_from))]
fn call_from(bytes: &[u8], from: usize) -> Option<(u64, usize)>
    ensures { MatchOption result (call_from bytes.now from ≡ 0)
        (λ next. (next.0 ≡ call_from bytes.now from) × (0 < next.0) × (next.1 ≡ place_of 10 bytes.now from + 1)) }
{
    let end = place_of(bytes, b'\n', from);
    if end >= bytes.len() {
        return None;
    }
    let call = call_in(&bytes[from..end])?;
    Some((call, end + 1))
}

// The calls of the lines from a place on, as words: up to the first bad line, or the end, or where there is no word left.
pub fn read_calls(bytes: &[u8], from: usize, words: &mut [u64]) -> Script
    ensures { Reads bytes.now from words.old words.new result.calls result.end }
{
    let mut at = from;
    for (k, word) in words.iter_mut().enumerate() {
        match call_from(bytes, at) {
            Some((call, behind)) => {
                *word = call;
                at = behind;
            }
            None => return Script { calls: k, end: at },
        }
    }
    Script {
        calls: words.len(),
        end: at,
    }
}
