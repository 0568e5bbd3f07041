// Lists of calls, of either register.
#![tactic(auto)]

ghost use Rattle.std.specs.Prelude.{◌≡◌, Ok};
ghost use Rattle.common.specs.Answers.{reply};
ghost use Rattle.common.specs.SetUp.{set_up_of};
ghost use Rattle.common.specs.Register.{call_of};
ghost use Rattle.protocol.specs.Rules.{ticket_rules};
ghost use Rattle.protocol.specs.Reference as first-book;
ghost use Rattle.protocol.specs.Whole as first-whole;
ghost use Rattle.counted.specs.Rules.{counted_rules};
ghost use Rattle.counted.specs.Reference as counted-book;
ghost use Rattle.counted.specs.Whole as counted_whole;
ghost use Rattle.kinds.specs.Rules.{rules_of};
ghost use Rattle.register.specs.Contract.{outcome};
ghost use Rattle.lists.specs.Run.{made_of, made_calls, run_words_of, WholeRun};

use common::calls::Call;
use common::numbers::answer_word;
use common::{Done, Refusal, State};
use kinds::{Counting, Protocol, Tickets};
use register::calls::{Called, begin_read, begin_write, retire, step};
use register::set_up::set_up_of;

// How many calls were made, and the state behind them.
#[derive(Clone, Copy, Debug, PartialEq, Eq)]
pub struct Made {
    pub made: usize,
    pub state: State,
}

// What a run gives: set-up's answer, and its calls. As in a `Called`, the answer stands beside the state: the state comes back, refused or
// not.
#[derive(Clone, Copy, Debug, PartialEq, Eq)]
pub struct Ran {
    pub answer: Result<Done, Refusal>,
    pub calls: Made,
}

#[tactic(auto, unfolding(common::specs::Register::call_of))]
fn make_call(s: State, table: &mut [u64], log: &mut [u64], call: Call) -> Called
    ensures { outcome result table.new log.new ≡ call_of (rules_of s.head.counted) s table.old log.old call }
{
    match call {
        Call::Write(value) => begin_write(s, table, log, value),
        Call::Read(p) => begin_read(s, table, log, p),
        Call::Step(p) => step(s, table, log, p),
        Call::Retire(p) => retire(s, table, log, p),
    }
}

// The calls in the words, from a state on, with their answers.
fn make_calls(
    s: State,
    words: &[u64],
    table: &mut [u64],
    log: &mut [u64],
    answers: &mut [u64],
) -> Made
    ensures { made_calls result table.new log.new answers.new ≡ made_of (rules_of s.head.counted) s table.old log.old words.now answers.old }
{
    let mut state = s;
    let places = words.len().min(answers.len());
    for i in 0..places {
        let Some(call) = Call::from_word(words[i]) else {
            return Made { made: i, state };
        };
        let o = make_call(state, table, log, call);
        answers[i] = answer_word(o.answer);
        state = o.state;
    }
    Made {
        made: places,
        state,
    }
}

// Set-up, and then the calls in the words, with their answers; no call if set-up is refused.
fn run_of<P: Protocol>(
    n: u32,
    value: u32,
    fresh: u32,
    words: &[u64],
    table: &mut [u64],
    log: &mut [u64],
    answers: &mut [u64],
) -> Ran
    ensures { (result.answer ≡ (set_up_of P.rules n value fresh table.old log.old).answer)
        × (made_calls result.calls table.new log.new answers.new ≡ run_words_of P.rules n value fresh words.now table.old log.old answers.old) }
{
    let Called { answer, state } = set_up_of::<P>(n, value, fresh, table, log);
    if answer.is_err() {
        let calls = Made { made: 0, state };
        return Ran { answer, calls };
    }
    let calls = make_calls(state, words, table, log, answers);
    Ran { answer, calls }
}

// Set-up, and then the calls in the words, with their answers; no call if set-up is refused. A word's upper half is the call's kind, 1
// begin a write, 2 begin a read, 3 a sub-step, 4 retire a reader, and its lower half the number. An answer's upper half is the refusal
// number, and its lower half the sub-step's. The words are C's. The calls end at the first word that is none, and where the answers have no
// place left.
pub fn run(
    n: u32,
    value: u32,
    words: &[u64],
    table: &mut [u64],
    log: &mut [u64],
    answers: &mut [u64],
) -> Ran
    ensures { (result.answer ≡ (set_up_of ticket_rules n value 0 table.old log.old).answer)
        × (made_calls result.calls table.new log.new answers.new ≡ run_words_of ticket_rules n value 0 words.now table.old log.old answers.old)
        × (result.answer ≡ Ok Done.Accepted → WholeRun ticket_rules first-book.book (first-whole.Whole n value table.old log.old) n value 0 table.old log.old words.now answers.old (made_calls result.calls table.new log.new answers.new))
        × (reply result.answer ≡ reply (set_up_of ticket_rules n value 0 table.old log.old).answer) }
{
    run_of::<Tickets>(n, value, 0, words, table, log, answers)
}

// The same of the counted register, with a fresh stamp too.
pub fn run_counted(
    n: u32,
    value: u32,
    fresh: u32,
    words: &[u64],
    table: &mut [u64],
    log: &mut [u64],
    answers: &mut [u64],
) -> Ran
    ensures { (result.answer ≡ (set_up_of counted_rules n value fresh table.old log.old).answer)
        × (made_calls result.calls table.new log.new answers.new ≡ run_words_of counted_rules n value fresh words.now table.old log.old answers.old)
        × (result.answer ≡ Ok Done.Accepted → WholeRun counted_rules counted-book.book (counted_whole.Whole n value fresh table.old log.old) n value fresh table.old log.old words.now answers.old (made_calls result.calls table.new log.new answers.new))
        × (reply result.answer ≡ reply (set_up_of counted_rules n value fresh table.old log.old).answer) }
{
    run_of::<Counting>(n, value, fresh, words, table, log, answers)
}
