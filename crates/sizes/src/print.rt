// The input of a sizing, and its print. What does not fit is left out.
ghost use Rattle.std.specs.Prelude.{◌≡◌, ◌≤◌, length, take, Ok, Err};
ghost use Rattle.figures.specs.declared.NoFigures.TheVariants.{TooLong};
ghost use Rattle.lines.specs.Lines.{Puts, Within};
ghost use Rattle.lines.specs.Adds.{Adds};
ghost use Rattle.printing.specs.Sizing.{figures_line, answer_line, sizing_text, sizing_print};

use super::size_of;
use fields::read_line_array;
use figures::{Figures, NoFigures};
use lines::Sink;

// A register's name, and its figures.
fn put_figures(out: &mut Sink, name: &[u8], f: Figures)
    ensures { Adds (figures_line name.now (Ok f)) out.old out.new }
{
    out.put_text(name);
    out.put_text(b" rows ");
    out.put_number(f.rows as u64);
    out.put_text(b" least ");
    out.put_number(f.least as u64);
    out.put_line(b" most ", f.most as u64);
}

// That there are more rows than a log has.
fn put_too_long(out: &mut Sink, name: &[u8])
    ensures { Adds (answer_line name.now (Err TooLong)) out.old out.new }
{
    out.put_text(b"more than ");
    out.put_number(4096);
    out.put_text(b" rows\n");
}

// The line of a register's answer.
fn put_answer(out: &mut Sink, name: &[u8], answer: Result<Figures, NoFigures>)
    ensures { Adds (answer_line name.now answer) out.old out.new }
{
    match answer {
        Ok(f) => put_figures(out, name, f),
        Err(why) => match why {
            NoFigures::Refused => out.put_refused(1),
            NoFigures::Larger => out.put_line(b"more than ", 2000),
            NoFigures::TooLong => put_too_long(out, name),
        },
    }
}

// The lines of both registers. An answer without figures is the whole print.
fn put_sizing(out: &mut Sink, n: u32, writes: u32, reads: u32)
    ensures { Adds (sizing_text n writes reads) out.old out.new }
{
    let tickets = size_of(false, n, writes, reads);
    put_answer(out, b"tickets", tickets);
    if tickets.is_ok() {
        put_answer(out, b"counted", size_of(true, n, writes, reads));
    }
}

// The line `n writes reads`.
fn put_input(out: &mut Sink, bytes: &[u8])
    ensures { Adds (sizing_print bytes.now) out.old out.new }
{
    match read_line_array(bytes, 65536, [0; 3]) {
        Some(numbers) => {
            let [n, writes, reads] = numbers;
            put_sizing(out, n, writes, reads);
        }
        None => out.put_bad(1),
    }
}

// What the program `sizing` prints for the bytes of its input, at the front. 256 bytes have room for every such print.
pub fn sizing_print(bytes: &[u8], out: &mut [u8]) -> usize
    ensures print { Puts (sizing_print bytes.now) 0 out.old out.new result }
    ensures within { Within result out.new }
    ensures whole { 256 ≤ length out.old → take result out.new ≡ sizing_print bytes.now }
{
    let mut print = Sink::new(out);
    put_input(&mut print, bytes);
    print.at
}
