// Stores a log in strips, or puts one back: `strips store < LOG > FILE`, `strips restore < FILE > LOG`. A log is its rows as bytes; a file is the
// bytes' count in eight bytes, the bytes, and the rows. A refusal is a line on standard error, and then nothing is written on standard output.
#![tactic(auto)]

use files::{restore_file, store_file};
use inputs::{is_same, log_bytes, read_standard};
use lines::Sink;
use std::env::Env;
use std::io;
use storing::Fault;

// Room for a file, and for one byte more than is looked into.
const FILE: usize = 65537;

// Writes the bytes that were put, or the line of the refusal.
fn say(rt: &HostRuntime, made: Result<&[u8], Fault>) -> io::Result<()> {
    match made {
        Ok(bytes) => rt.write_all(bytes),
        Err(fault) => {
            let mut line = [0u8; 32];
            let mut text = Sink::new(&mut line);
            text.put_refused(fault.number() as u64);
            let n = text.at;
            rt.stderr().write_all(&line[..n])
        }
    }
}

fn store_input(rt: &HostRuntime) -> io::Result<()> {
    let mut log = log_bytes();
    let n = read_standard(rt, &mut log);
    let mut out = [0u8; FILE];
    let made = store_file(&log[..n], &mut out);
    say(rt, made.map(|count| &out[..count]))
}

fn restore_input(rt: &HostRuntime) -> io::Result<()> {
    let mut file = [0u8; FILE];
    let n = read_standard(rt, &mut file);
    let mut out = log_bytes();
    let made = restore_file(&file[..n], &mut out);
    say(rt, made.map(|count| &out[..count]))
}

fn main(rt: HostRuntime) -> io::Result<()> {
    if inputs::end(&rt) == 2 {
        let mut text = [0u8; 4096];
        if let Ok(n) = rt.arg(1, &mut text) {
            let word = &text[..n];
            if is_same(word, b"store") {
                return store_input(&rt);
            }
            if is_same(word, b"restore") {
                return restore_input(&rt);
            }
        }
    }
    eprint!(rt; "strips store < LOG > FILE\nstrips restore < FILE > LOG\n")
}
