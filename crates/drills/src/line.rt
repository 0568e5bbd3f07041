// The line of a schedule: its turns, and what the judge says of the log that they leave.
ghost use Rattle.std.specs.Prelude.{◌≡◌, true, ◌≤◌};
ghost use mathlib.Core.List.{flat_map};
ghost use Rattle.std.proofs.lemmas.List.Edits.{sets};
ghost use Rattle.common.specs.SetUp.{readers_fit};
ghost use Rattle.lines.specs.Adds.{Adds};
ghost use Rattle.drills.specs.Words.{turn_words, word_letter, word_letters, number_line};

use lines::Sink;
use prints::verdict::put_verdict;

// Words, as `lists::run` takes them for C, the kind above and the number below: a write of 0 begins, reader 1's read begins, a sub-step of
// processor 0.
const WRITE: u64 = 4294967296;

const READ: u64 = 8589934593;

const STEP: u64 = 12884901888;

// The turns of a schedule as calls, behind the two begins. The last turn's bit is the lowest.
fn put_turns(words: &mut [u64; 18], turns: usize, schedule: u64)
    requires { turns ≤ 16 }
    ensures { words.new ≡ sets words.old 2 (turn_words turns schedule) }
{
    let mut rest = schedule;
    for i in 0..turns {
        words[turns + 1 - i] = STEP + rest % 2;
        rest /= 2;
    }
}

// The letter of a turn, by its call and its answer: a capital if it was refused.
fn letter_of(call: u64, answer: u64) -> u8
    ensures { result ≡ word_letter call answer }
{
    match (answer / 4294967296 == 0, call % 2 == 0) {
        (true, true) => b'w',
        (true, false) => b'r',
        (false, true) => b'W',
        (false, false) => b'R',
    }
}

// The letters of the turns.
fn put_letters(out: &mut Sink, calls: &[u64], answers: &[u64])
    ensures { Adds (word_letters calls.now answers.now) out.old out.new }
{
    for (call, answer) in calls.iter().zip(answers) {
        out.put(letter_of(*call, *answer));
    }
}

// The line of a schedule. Its numbers go from `put_lines` to this one function, so they are no struct. A write of v is begun on a fresh register, and then a read by reader 1.
fn put_line(out: &mut Sink, n: u32, start: u32, v: u32, turns: usize, schedule: u64)
    requires { (readers_fit n ≡ true) × (turns ≤ 16) }
    ensures { Adds (number_line n start v turns schedule) out.old out.new }
{
    let mut words = [0u64; 18];
    words[0] = WRITE + v as u64;
    words[1] = READ;
    put_turns(&mut words, turns, schedule);
    let calls = turns + 2;
    let mut table = [0u64; 272];
    let mut log = [0u64; 5];
    let mut answers = [0u64; 18];
    let ran = lists::run(
        n,
        start,
        &words[..calls],
        &mut table,
        &mut log,
        &mut answers,
    );
    let made = ran.calls;
    let state = made.state;
    let used = state.head.used;
    put_letters(out, &words[2..calls], &answers[2..calls]);
    out.put(b' ');
    put_verdict(out, &log[..used]);
}

// The lines of schedules.
pub(crate) fn put_lines(out: &mut Sink, n: u32, start: u32, v: u32, turns: usize, list: &[u64])
    requires { (readers_fit n ≡ true) × (turns ≤ 16) }
    ensures { Adds (flat_map (number_line n start v turns) list.now) out.old out.new }
{
    for schedule in list {
        put_line(out, n, start, v, turns, *schedule);
    }
}
