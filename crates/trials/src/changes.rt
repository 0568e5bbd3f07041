// A state with a field changed. The fields are numbered, since a trial is numbers: an enum between would be told by the same numbers.
// Field 0 counts as 4.
use common::{Head, Reader, State, Writer};
use words::stamp::Stamp;

fn byte(value: u64) -> u8 {
    (value % 256) as u8
}

fn half(value: u64) -> u32 {
    (value % 4294967296) as u32
}

// 1 the number of readers, 2 the log's rows, 3 the rows used, 4 the number of open operations.
fn change_head(head: &mut Head, field: u64, value: u64) {
    match field {
        1 => head.n = half(value),
        2 => head.rows = value as usize,
        3 => head.used = value as usize,
        _ => head.opens = byte(value),
    }
}

// 5 cur, 6 prev.
fn change_stamp(stamp: &mut Stamp, field: u64, value: u64) {
    match field {
        5 => stamp.cur = byte(value),
        _ => stamp.prev = byte(value),
    }
}

// 1 the words moved, 2 the set of tickets excluded, 3 the ticket, 4 the count; 5 and 6 of its stamp.
fn change_writer(writer: &mut Writer, field: u64, value: u64) {
    match field {
        1 => writer.moved = byte(value),
        2 => writer.excluded = value,
        3 => writer.ticket = byte(value),
        0 | 4 => writer.count = half(value),
        _ => change_stamp(&mut writer.stamp, field, value),
    }
}

// 1 the words moved, 2 whether it is the second attempt, 3 whether it is retired, 4 whether its read is open; 5 and 6 of its stamp.
fn change_reader(reader: &mut Reader, field: u64, value: u64) {
    match field {
        1 => reader.moved = byte(value),
        2 => reader.second = value == 1,
        3 => reader.retired = value == 1,
        0 | 4 => reader.active = value == 1,
        _ => change_stamp(&mut reader.stamp, field, value),
    }
}

// Of processor p; with p above 16, of the head.
pub(crate) fn change(state: &mut State, p: u64, field: u64, value: u64) {
    match p {
        0 => change_writer(&mut state.writer, field, value),
        1..=16 => change_reader(&mut state.readers[p as usize - 1], field, value),
        _ => change_head(&mut state.head, field, value),
    }
}
