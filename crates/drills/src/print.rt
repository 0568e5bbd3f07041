// The input of a drill, and its print.
ghost use Rattle.std.specs.Prelude.{◌≡◌, ◌+◌, ◌≤◌, length, take};
ghost use Rattle.lines.specs.Lines.{Puts, Within};
ghost use Rattle.lines.specs.Adds.{Adds};
ghost use Rattle.printing.specs.Drill.{drill_lines, drill_print};

use super::line::put_lines;
use fields::read_line_array;
use lines::Sink;
use turns::list_schedules;

// The lines of all schedules, or that there is no such register.
fn put_drill(out: &mut Sink, n: u32, start: u32, v: u32, a: u32, b: u32)
    requires { a + b ≤ 16 }
    ensures { Adds (drill_lines n start v a b) out.old out.new }
{
    if 1 <= n && n <= 16 {
        let mut list = [0u64; 12870];
        let count = list_schedules(a, b, &mut list);
        put_lines(out, n, start, v, (a + b) as usize, &list[..count]);
    } else {
        out.put_refused(1);
    }
}

// The line `n start v a b`.
fn put_input(out: &mut Sink, bytes: &[u8])
    ensures { Adds (drill_print bytes.now) out.old out.new }
{
    match read_line_array(bytes, 65536, [0; 5]) {
        Some(numbers) => {
            let [n, start, v, a, b] = numbers;
            let turns = u64::from(a) + u64::from(b);
            if 1 <= turns && turns <= 16 {
                put_drill(out, n, start, v, a, b);
            } else {
                out.put_bad(1);
            }
        }
        None => out.put_bad(1),
    }
}

// What the program `drill` prints for the bytes of its input, at the front. 2,097,152 bytes have room for every such print.
pub fn drill_print(bytes: &[u8], out: &mut [u8]) -> usize
    ensures print { Puts (drill_print bytes.now) 0 out.old out.new result }
    ensures within { Within result out.new }
    ensures whole { 2097152 ≤ length out.old → take result out.new ≡ drill_print bytes.now }
{
    let mut print = Sink::new(out);
    put_input(&mut print, bytes);
    print.at
}
