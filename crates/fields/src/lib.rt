// The numbers and fields of lines.
#![tactic(auto)]

ghost use Rattle.std.specs.Prelude.{◌≡◌, ◌+◌, ◌^◌, ◌≤◌, ◌<◌, ℕ, length, get_or, set, true, false, MatchOption};
ghost use Rattle.std.proofs.lemmas.List.Edits.{sets};
ghost use Rattle.fields.specs.Fields.{place_of, none, number_in, numbers_in, each_number, all_numbers, first_numbers, one_line_of};
ghost use Rattle.fields.specs.Digits.{digit_after};

// What stands for a field that is no number, among numbers of 32 bits.
pub const NONE: u64 = 4294967296;

// The place of the first byte x from a place on, or the end. No Option: what is looked for ends a part of the bytes, and so does their end.
pub fn place_of(bytes: &[u8], x: u8, from: usize) -> usize
    ensures { result ≡ place_of x bytes.now from }
{
    for i in from..bytes.len() {
        if bytes[i] == x {
            return i;
        }
    }
    from.max(bytes.len())
}

// The number that v and one digit more give, if the byte is a digit and 32 bits have room.
#[tactic(auto, unfolding(crate::specs::Digits::digit_after))]
fn digit_after(v: u32, b: u8) -> Option<u32>
    ensures { MatchOption result (digit_after v b ≡ none) (λ w. w ≡ digit_after v b) }
{
    match b {
        b'0'..=b'9' => {
            let next = u64::from(v) * 10 + u64::from(b - b'0');
            if next < NONE { Some(next as u32) } else { None }
        }
        _ => None,
    }
}

// The number of a field, if it is one.
#[tactic(auto, using(crate::proofs::FieldLaws::number_none))]
pub fn number_in(text: &[u8]) -> Option<u32>
    ensures { MatchOption result (number_in text.now ≡ none) (λ x. (x ≡ number_in text.now) × (x < none)) }
{
    if text.is_empty() {
        return None;
    }
    let mut v = 0;
    for b in text {
        v = digit_after(v, *b)?;
    }
    Some(v)
}

// The number of a field, or NONE.
fn number_or_none(text: &[u8]) -> u64
    ensures { result ≡ number_in text.now }
{
    number_in(text).map_or(NONE, u64::from)
}

// Puts a number at place k, if there is such a place.
fn put(numbers: &mut [u64], k: usize, x: u64)
    ensures { numbers.new ≡ set numbers.old k x }
{
    if k < numbers.len() {
        numbers[k] = x;
    }
}

// Puts the numbers of a line's fields into the places, as far as there are places, and gives how many fields stand before the last.
fn put_numbers(line: &[u8], numbers: &mut [u64]) -> usize
    ensures count { result + 1 ≡ length (numbers_in line.now) }
    ensures few { result ≤ length line.now }
    ensures numbers { numbers.new ≡ sets numbers.old 0 (numbers_in line.now) }
{
    let mut at = 0;
    let mut k = 0;
    let mut end = place_of(line, b' ', 0);
    while end < line.len() {
        put(numbers, k, number_or_none(&line[at..end]));
        k += 1;
        at = end + 1;
        end = place_of(line, b' ', at);
    }
    put(numbers, k, number_or_none(&line[at..]));
    k
}

// Whether none of the numbers is NONE.
fn each_number(numbers: &[u64]) -> bool
    ensures { result ≡ each_number numbers.now }
{
    for x in numbers {
        if *x >= NONE {
            return false;
        }
    }
    true
}

// Reads the numbers of a line's fields into the places, as far as there are places: whether there are as many fields as places, and each
// is a number.
pub fn read_numbers(line: &[u8], numbers: &mut [u64]) -> bool
    ensures good { result ≡ all_numbers (length numbers.old) (numbers_in line.now) }
    ensures numbers { numbers.new ≡ sets numbers.old 0 (numbers_in line.now) }
{
    let last = put_numbers(line, numbers);
    if numbers.len() == last + 1 {
        return each_number(numbers);
    }
    false
}

// Reads the numbers of the first line's fields into the places, as far as there are places: whether that line is all, of so many bytes at most, has
// as many fields as there are places, and each is a number.
pub fn read_one_line(bytes: &[u8], most: usize, numbers: &mut [u64]) -> bool
    ensures good { result ≡ one_line_of most (length numbers.old) bytes.now }
    ensures numbers { numbers.new ≡ sets numbers.old 0 (first_numbers bytes.now) }
{
    let end = place_of(bytes, b'\n', 0);
    let good = read_numbers(&bytes[..end], numbers);
    (bytes.len() <= most) & ((bytes.len() - end == 1) & good)
}

// The numbers of 32 bits that the places hold, as such.
fn narrow<const N: usize>(places: &[u64; N]) -> [u32; N]
    requires { (i : ℕ) → i < N → get_or places.now i 0 < none }
    ensures { result ≡ places.now }
{
    let mut numbers = [0; N];
    for i in 0..N {
        numbers[i] = places[i] as u32;
    }
    numbers
}

// The numbers of a line's fields, if there are as many fields as the room has places, and each is a number. What the room holds is not looked at.
pub fn read_array<const N: usize>(line: &[u8], room: [u64; N]) -> Option<[u32; N]>
    ensures { MatchOption result (all_numbers N (numbers_in line.now) ≡ false)
        (λ numbers. (all_numbers N (numbers_in line.now) ≡ true) × (numbers ≡ numbers_in line.now)) }
{
    let mut places = room;
    if read_numbers(line, &mut places) {
        return Some(narrow(&places));
    }
    None
}

// The numbers of the first line's fields, if that line is all, of so many bytes at most, has as many fields as the room has places, and each is a
// number.
pub fn read_line_array<const N: usize>(
    bytes: &[u8],
    most: usize,
    room: [u64; N],
) -> Option<[u32; N]>
    ensures { MatchOption result (one_line_of most N bytes.now ≡ false)
        (λ numbers. (one_line_of most N bytes.now ≡ true) × (numbers ≡ first_numbers bytes.now)) }
{
    let mut places = room;
    if read_one_line(bytes, most, &mut places) {
        return Some(narrow(&places));
    }
    None
}
