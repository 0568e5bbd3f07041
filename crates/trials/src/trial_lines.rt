// The trials of a text, each a line of it.
use super::trial::try_acts;
use fields::number_in;
use std::io;

// The numbers of a text, a space behind each but the last, as many as there are places for. What is no number is 4294967296, which no field gives.
fn read_numbers(text: &[u8], numbers: &mut [u64]) {
    let fields = text.split_inclusive(|b| *b == b' ');
    for (place, field) in numbers.iter_mut().zip(fields) {
        let number = field.strip_suffix(b" ").unwrap_or(field);
        *place = number_in(number).map_or(4294967296, u64::from);
    }
}

// What stands before the bar is printed; what the numbers behind it say is done.
fn try_line(rt: &impl Print, line: &[u8]) -> io::Result<()> {
    let Some(bar) = line.iter().position(|b| *b == b'|') else {
        return Ok(());
    };
    rt.write_all(&line[..bar])?;
    let mut numbers = [0u64; 256];
    read_numbers(&line[bar + 1..], &mut numbers);
    try_acts(rt, &numbers)?;
    println!(rt)
}

pub(crate) fn try_all(rt: &impl Print, text: &[u8]) -> io::Result<()> {
    for line in text.split(|b| *b == b'\n') {
        try_line(rt, line)?;
    }
    Ok(())
}
