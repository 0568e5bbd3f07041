// The inputs of a program: the files that its arguments name, where `-` is standard input; or standard input alone, if it has no argument.
// Inputs are numbered from 1, as the arguments are. The operating system's part is assumed, as the standard library says it.
#![tactic(auto)]

ghost use Rattle.std.specs.Prelude.{◌≡◌, ℕ, ◌<◌, ◌≤◌, ◌^◌, List, length, replicate, IfSome, IfOk};
ghost use Rattle.inputs.specs.Counts.{IsPrefixLen};
ghost use Rattle.words.specs.Same.{same};
ghost use Rattle.lines.specs.Lines.{Puts};

use std::env::{Env, FillError};
use std::fmt::Display;
use std::fs::Files;
use std::io::{Eprint, Input as StandardInput, Print, Read};
use std::{fs, io};

// As many bytes as are read of a log: one more than it may have, so that a longer one is seen to be longer.
pub const LOG: usize = 32769;

// The same of an input of the bench, of a drill or of a sizing.
pub const TEXT: usize = 65537;

// Room for a log as bytes, all of them 0.
pub fn log_bytes() -> [u8; LOG]
    ensures zeros { result ≡ replicate 32769 0 }
    ensures length { 32769 ≡ length result }
{
    [0; LOG]
}

// Room for an input of the others.
pub fn text_bytes() -> [u8; TEXT]
    ensures zeros { result ≡ replicate 65537 0 }
    ensures length { 65537 ≡ length result }
{
    [0; TEXT]
}

// Whether two texts are the same. Byte by byte, since an edit is about a byte; `==` would leave it no place.
pub fn is_same(text: &[u8], word: &[u8]) -> bool
    ensures { result ≡ same text.now word.now }
{
    if text.len() != word.len() {
        return false;
    }
    for i in 0..text.len() {
        if text[i] != word[i] {
            return false;
        }
    }
    true
}

// Reads until the bytes are full, the input ends or a read fails: how many are read. A `while`, since each read says how far it goes.
fn read_full<R: Read>(reader: &mut R, bytes: &mut [u8]) -> usize
    ensures { IsPrefixLen result bytes.new }
{
    let mut done = 0;
    while done < bytes.len() {
        match reader.read(&mut bytes[done..]) {
            Ok(0) | Err(_) => break,
            Ok(n) => done += n,
        }
    }
    done
}

// A line on standard error: what is no input, and why.
fn say_missing<R: Eprint, D: Display + Drop>(rt: &R, what: &str, why: D) {
    let _ = eprintln!(rt; "{what}: {why}");
}

// What can be read from standard input: how many bytes, as many as there is room for.
pub fn read_standard<R: StandardInput>(rt: &R, bytes: &mut [u8]) -> usize
    ensures { IsPrefixLen result bytes.new }
{
    let mut reader = rt.reader();
    read_full(&mut reader, bytes)
}

// What can be read from a file.
fn read_file<R: Files + Eprint>(rt: &R, path: &str, bytes: &mut [u8]) -> Option<usize>
    ensures { IfSome result (λ n. IsPrefixLen n bytes.new) }
{
    match fs::open(rt, path) {
        Ok(mut file) => Some(read_full(&mut file, bytes)),
        Err(error) => {
            say_missing(rt, path, error);
            None
        }
    }
}

// What can be read from the file that argument k names. A path is UTF-8 text of at most 4,095 bytes.
fn read_argument<R: Env + Files + StandardInput + Eprint>(
    rt: &R,
    k: usize,
    bytes: &mut [u8],
) -> Option<usize>
    ensures { IfSome result (λ n. IsPrefixLen n bytes.new) }
{
    let mut argument = [0u8; 4096];
    let Ok(n) = rt.arg(k, &mut argument) else {
        say_missing(rt, "argument", "there is none, or it is too long");
        return None;
    };
    if is_same(&argument[..n], b"-") {
        return Some(read_standard(rt, bytes));
    }
    match str::from_utf8(&argument[..n]) {
        Ok(path) => read_file(rt, path, bytes),
        Err(error) => {
            say_missing(rt, "argument", error);
            None
        }
    }
}

// Whether there is an argument k.
fn is_argument<R: Env>(rt: &R, k: usize) -> bool {
    let mut argument = [0u8; 1];
    !matches!(rt.arg(k, &mut argument), Err(FillError::NotPresent))
}

// Input k, as much of it as there are bytes for: how many bytes are its, if there is such an input.
pub fn read<R: Env + Files + StandardInput + Eprint>(
    rt: &R,
    k: usize,
    bytes: &mut [u8],
) -> Option<usize>
    ensures { IfSome result (λ n. IsPrefixLen n bytes.new) }
{
    if !is_argument(rt, 1) {
        return Some(read_standard(rt, bytes));
    }
    read_argument(rt, k, bytes)
}

// The number behind the last input's.
pub fn end<R: Env>(rt: &R) -> usize
    ensures { 2 ≤ result }
{
    (2..usize::MAX)
        .find(|k| !is_argument(rt, *k))
        .unwrap_or(usize::MAX)
}

// A program that prints something of each of its inputs, of which ROOM bytes are read.
pub trait Prints<const ROOM: usize, const SIZE: usize> {
    // What is printed of an input's bytes.
    ghost said: { List ℕ → List ℕ };

    // Puts it at the front of the lent bytes, as far as they go: how many bytes are put.
    fn print(bytes: &[u8], out: &mut [u8]) -> usize
        ensures print { Puts (said bytes.now) 0 out.old out.new result }
        ensures within { IsPrefixLen result out.new };

    // Lent are SIZE bytes, and no print is longer.
    ghost short: { (bytes : List ℕ) → length (said bytes) ≤ SIZE };

    // There are arrays of so many bytes.
    ghost room_fits: { ROOM < 2 ^ 63 };

    ghost size_fits: { SIZE < 2 ^ 63 };

    // Writes the print of each input, and gives how many inputs there were: one at least. No clause can say what a terminal is given.
    final fn print_each<R: Env + Files + StandardInput + Eprint + Print>(
        rt: &R,
    ) -> io::Result<usize>
        ensures { IfOk result (λ n. 1 ≤ n) }
    {
        let mut printed = 0;
        for k in 1..end(rt) {
            print_input::<ROOM, SIZE, Self, R>(rt, k)?;
            printed += 1;
        }
        Ok(printed)
    }
}

// Writes the print of input k.
fn print_input<
    const ROOM: usize,
    const SIZE: usize,
    P: Prints<ROOM, SIZE>,
    R: Env + Files + StandardInput + Eprint + Print,
>(rt: &R, k: usize) -> io::Result<()> {
    let mut bytes = [0; ROOM];
    if let Some(count) = read(rt, k, &mut bytes) {
        let mut out = [0; SIZE];
        let n = P::print(&bytes[..count], &mut out);
        rt.write_all(&out[..n])?;
    }
    Ok(())
}
