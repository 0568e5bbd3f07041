// The bench: set-up, the calls, and what comes of them.
ghost use Rattle.std.specs.Prelude.{◌≡◌, ◌≤◌, length, take};
ghost use Rattle.lines.specs.Lines.{Puts, Within};
ghost use Rattle.lines.specs.Adds.{Adds};
ghost use Rattle.printing.specs.Print.{bench_print};
ghost use Rattle.prints.specs.Words.{bad_number, ending, most_calls, run_print, script_print};

use super::log::put_log;
use super::refusals::put_refusals;
use common::Done;
use fields::{place_of, read_array};
use lines::Sink;
use script::read_calls;

// The number of the bad line behind the calls, or 0 if all the bytes were read: no line has that number, and `ending` of prints/specs/Words goes
// by it.
fn bad_number(calls: usize, end: usize, bytes: usize) -> u64
    requires { calls ≤ most_calls }
    ensures { result ≡ bad_number calls end bytes }
{
    if end < bytes { calls as u64 + 2 } else { 0 }
}

// The bad line behind the calls, if there is one; or the listing and the order of the log's rows.
fn put_ending(out: &mut Sink, n: u32, start: u32, rows: &[u64], bad: u64)
    ensures { Adds (ending n start rows.now bad) out.old out.new }
{
    if bad == 0 {
        put_log(out, n, start, rows);
    } else {
        out.put_bad(bad);
    }
}

// A register with n readers and a start reading, and the calls made on it. A refused set-up is the whole print; no set-up answers with a
// sub-step.
fn put_run(out: &mut Sink, n: u32, start: u32, words: &[u64], bad: u64)
    ensures { Adds (run_print n start words.now bad) out.old out.new }
{
    let mut table = [0u64; 272];
    let mut log = [0u64; 4096];
    let mut answers = [0u64; 16384];
    let ran = lists::run(n, start, words, &mut table, &mut log, &mut answers);
    let calls = ran.calls;
    let made = calls.made;
    let state = calls.state;
    let used = state.head.used;
    match ran.answer {
        Ok(Done::Accepted) => {
            put_refusals(out, &answers[..made]);
            put_ending(out, n, start, &log[..used], bad);
        }
        Ok(Done::Moved(_)) => {}
        Err(refusal) => out.put_refused(u64::from(refusal)),
    }
}

// The calls from a place on, up to the first bad line.
fn put_script(out: &mut Sink, n: u32, start: u32, bytes: &[u8], from: usize)
    ensures { Adds (script_print n start bytes.now from) out.old out.new }
{
    let mut words = [0u64; 16384];
    let script = read_calls(bytes, from, &mut words);
    let calls = script.calls;
    let bad = bad_number(calls, script.end, bytes.len());
    put_run(out, n, start, &words[..calls], bad);
}

// The first line, and the calls behind it.
fn put_input(out: &mut Sink, bytes: &[u8])
    ensures { Adds (bench_print bytes.now) out.old out.new }
{
    if 65536 < bytes.len() {
        return out.put_bad(1);
    }
    let end = place_of(bytes, 10, 0);
    if end >= bytes.len() {
        return out.put_bad(1);
    }
    match read_array(&bytes[..end], [0; 2]) {
        Some(first) => {
            let [n, start] = first;
            put_script(out, n, start, bytes, end + 1);
        }
        None => out.put_bad(1),
    }
}

// What the bench prints for the bytes of its input, at the front. 1,048,576 bytes have room for every such print.
pub fn bench_print(bytes: &[u8], out: &mut [u8]) -> usize
    ensures print { Puts (bench_print bytes.now) 0 out.old out.new result }
    ensures within { Within result out.new }
    ensures whole { 1048576 ≤ length out.old → take result out.new ≡ bench_print bytes.now }
{
    let mut print = Sink::new(out);
    put_input(&mut print, bytes);
    print.at
}
