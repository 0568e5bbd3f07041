// Both registers for a host in C: set-up and a list of calls, in lent buffers.
#![tactic(auto)]

ghost use Rattle.std.specs.Prelude.{◌≡◌, ◌+◌, ◌*◌, ◌^◌, ◌≤◌};
ghost use Rattle.words.specs.Bits.{low};
ghost use Rattle.common.specs.Answers.{number_of};
ghost use Rattle.lists.specs.Run.{run_words_of};
ghost use Rattle.protocol.specs.Rules.{ticket_rules};
ghost use Rattle.counted.specs.Rules.{counted_rules};
ghost use Rattle.host.specs.Host.{result_word};

use common::{Done, Refusal};
use lists::Ran;

// The number of an answer's refusal, or 0, as C is told it.
fn number(a: Result<Done, Refusal>) -> u64
    ensures { (result ≡ number_of a) × (result ≤ 14) }
{
    match a {
        Ok(_) => 0,
        Err(why) => u64::from(why),
    }
}

// The result's word.
fn result_word(ran: Ran) -> u64
    ensures { result ≡ number_of ran.answer * 2 ^ 32 + low 32 ran.calls.made }
{
    number(ran.answer) * 4294967296 + ran.calls.made as u64 % 4294967296
}

// A register of so many readers with a start reading, and the calls made on it (see lists::run). The result's upper half is
// the number of set-up's refusal, or 0; its lower half is the number of calls made, modulo 2^32.
#[unsafe(no_mangle)]
pub extern "C" fn register_run(
    readers: u32,
    start: u32,
    calls: &[u64],
    table: &mut [u64],
    log: &mut [u64],
    answers: &mut [u64],
) -> u64
    ensures result { result ≡ result_word ticket_rules readers start 0 calls.now table.old log.old answers.old }
    ensures table { table.new ≡ (run_words_of ticket_rules readers start 0 calls.now table.old log.old answers.old).table }
    ensures log { log.new ≡ (run_words_of ticket_rules readers start 0 calls.now table.old log.old answers.old).log }
    ensures answers { answers.new ≡ (run_words_of ticket_rules readers start 0 calls.now table.old log.old answers.old).places }
{
    let ran = lists::run(readers, start, calls, table, log, answers);
    result_word(ran)
}

// The same of the counted register, which has a fresh stamp too (see lists::run_counted).
#[unsafe(no_mangle)]
pub extern "C" fn counted_run(
    readers: u32,
    start: u32,
    fresh: u32,
    calls: &[u64],
    table: &mut [u64],
    log: &mut [u64],
    answers: &mut [u64],
) -> u64
    ensures result { result ≡ result_word counted_rules readers start fresh calls.now table.old log.old answers.old }
    ensures table { table.new ≡ (run_words_of counted_rules readers start fresh calls.now table.old log.old answers.old).table }
    ensures log { log.new ≡ (run_words_of counted_rules readers start fresh calls.now table.old log.old answers.old).log }
    ensures answers { answers.new ≡ (run_words_of counted_rules readers start fresh calls.now table.old log.old answers.old).places }
{
    let ran = lists::run_counted(readers, start, fresh, calls, table, log, answers);
    result_word(ran)
}
