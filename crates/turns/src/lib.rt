// The schedules of a short drill, listed: a writer's a turns and reader 1's b. A schedule is a number with a bit for each turn, the first turn's
// the highest, 1 for the reader.
#![tactic(auto)]

ghost use Rattle.std.specs.Prelude.{◌+◌, ◌<◌, ◌≤◌, ◌^◌, length, take};
ghost use Rattle.lines.specs.Lines.{Puts};
ghost use Rattle.lines.specs.Adds.{Adds};
ghost use Rattle.schedules.specs.Schedules.{after_writer, after_reader};
ghost use Rattle.schedules.specs.Numbers.{numbers, top, listed, Lists};

use lines::Lent;

// What may follow a writer's turn, behind the turns made so far, which d stands for. What may follow a reader's turn is the same, and stays a
// function of its own since `after_writer` and `after_reader` of schedules/specs are two, each defined through the other.
#[cycle(after_reader_after_writer)]
fn after_writer(a: u64, b: u64, d: u64, list: &mut Lent<u64>)
    requires { top (a + b) d < 2 ^ 32 }
    ensures { Adds (numbers d (after_writer (a + b) a b)) list.old list.new }
{
    match (a, b) {
        (0, 0) => list.put(d),
        (_, 0) => after_writer(a - 1, b, 2 * d, list),
        (0, _) => after_reader(a, b - 1, 2 * d + 1, list),
        _ => {
            after_writer(a - 1, b, 2 * d, list);
            after_reader(a, b - 1, 2 * d + 1, list);
        }
    }
}

// What may follow a reader's turn.
#[cycle(after_reader_after_writer)]
fn after_reader(a: u64, b: u64, d: u64, list: &mut Lent<u64>)
    requires { top (a + b) d < 2 ^ 32 }
    ensures { Adds (numbers d (after_reader (a + b) a b)) list.old list.new }
{
    match (a, b) {
        (0, 0) => list.put(d),
        (_, 0) => after_writer(a - 1, b, 2 * d, list),
        (0, _) => after_reader(a, b - 1, 2 * d + 1, list),
        _ => {
            after_writer(a - 1, b, 2 * d, list);
            after_reader(a, b - 1, 2 * d + 1, list);
        }
    }
}

// All schedules of up to 16 turns, in dictionary order, the writer first, as far as there are places; gives how many stand there: 12,870
// places have room for every list. Of more turns none are listed.
pub fn list_schedules(a: u32, b: u32, list: &mut [u64]) -> usize
    ensures list { Puts (listed a b) 0 list.old list.new result }
    ensures all { a + b ≤ 16 → 12870 ≤ length list.old → Lists a b (take result list.new) }
{
    let writer = a as u64;
    let reader = b as u64;
    if 16 < writer + reader {
        return 0;
    }
    let mut listed = Lent::new(list);
    after_writer(writer, reader, 0, &mut listed);
    listed.at
}
