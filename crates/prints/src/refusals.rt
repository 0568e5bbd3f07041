// The refused calls.
ghost use mathlib.Core.List.{flat_map};
ghost use Rattle.lines.specs.Adds.{Adds};
ghost use Rattle.prints.specs.Words.{refusal_text};

use lines::Sink;

// A call's line, if it was refused. The answers are words, as `run` leaves them for C: the upper half is the refusal number, or 0.
fn put_refusal(out: &mut Sink, answer: u64)
    ensures { Adds (refusal_text answer) out.old out.new }
{
    let number = answer / 4294967296;
    if number != 0 {
        out.put_refused(number);
    }
}

// A line for each refused call.
pub(crate) fn put_refusals(out: &mut Sink, answers: &[u64])
    ensures { Adds (flat_map refusal_text answers.now) out.old out.new }
{
    for answer in answers {
        put_refusal(out, *answer);
    }
}
