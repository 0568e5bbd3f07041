// The lines that the programs print, put into lent bytes. What does not fit is left out.
#![tactic(auto)]

ghost use mathlib.Core.List.{[], ◌∷◌, flat_map};
ghost use Rattle.std.specs.Prelude.{◌≡◌};
ghost use Rattle.lines.specs.Lines.{decimal, line_of, bad_line, refused_line, no_order_line, field, order_line, letter_of, reader_text, reading_text, row_line, readers_line};
ghost use Rattle.lines.specs.Adds.{Adds};

use words::row::Row;

// Lent places, and the number of the place behind what has been put there.
#[derive(Drop)]
pub struct Lent<'a, T> {
    pub places: &'a mut [T],
    pub at: usize,
}

impl<'a, T: Copy> Lent<'a, T> {
    // Nothing has been put yet.
    pub fn new(places: &'a mut [T]) -> Lent<'a, T>
        ensures same_reference { result.places.ghost_name ≡ places.entry.ghost_name }
        ensures places { result.places.now ≡ places.old }
        ensures at { result.at ≡ 0 }
    {
        Lent { places, at: 0 }
    }

    // One item.
    pub fn put(&mut self, item: T)
        ensures { Adds (item ∷ []) self.old self.new }
    {
        if self.at < self.places.len() {
            self.places[self.at] = item;
            self.at += 1;
        }
    }
}

// Lent bytes. A `fmt::Write` that is full would give an error; this one leaves out what does not fit, so numbers and lines are no `Display`.
pub type Sink<'a> = Lent<'a, u8>;

impl<'a> Sink<'a> {
    // A text.
    pub fn put_text(&mut self, text: &[u8])
        ensures { Adds text.now self.old self.new }
    {
        for b in text {
            self.put(*b);
        }
    }

    // The decimal digits of a number.
    pub fn put_number(&mut self, n: u64)
        ensures { Adds (decimal n) self.old self.new }
    {
        if n >= 10 {
            self.put_number(n / 10);
        }
        self.put(b'0' + (n % 10) as u8);
    }

    // Words and a number, as a line or its end.
    pub fn put_line(&mut self, words: &[u8], n: u64)
        ensures { Adds (line_of words.now n) self.old self.new }
    {
        self.put_text(words);
        self.put_number(n);
        self.put(b'\n');
    }

    // The line `bad line k`.
    pub fn put_bad(&mut self, k: u64)
        ensures { Adds (bad_line k) self.old self.new }
    {
        self.put_line(b"bad line ", k);
    }

    // The line `refused k`.
    pub fn put_refused(&mut self, k: u64)
        ensures { Adds (refused_line k) self.old self.new }
    {
        self.put_line(b"refused ", k);
    }

    // The line `no order` and a row.
    pub fn put_no_order(&mut self, row: u64)
        ensures { Adds (no_order_line row) self.old self.new }
    {
        self.put_line(b"no order ", row);
    }

    // The readers and the start reading.
    pub fn put_readers(&mut self, n: u64, start: u64)
        ensures { Adds (readers_line n start) self.old self.new }
    {
        self.put_text(b"readers ");
        self.put_number(n);
        self.put_line(b" start ", start);
    }

    // A space and a number.
    fn put_field(&mut self, n: u64)
        ensures { Adds (field n) self.old self.new }
    {
        self.put(b' ');
        self.put_number(n);
    }

    // The numbers, each with a space before it.
    fn put_fields(&mut self, numbers: &[u64])
        ensures { Adds (flat_map field numbers.now) self.old self.new }
    {
        for n in numbers {
            self.put_field(*n);
        }
    }

    // The line `order` and the begin rows.
    pub fn put_order(&mut self, rows: &[u64])
        ensures { Adds (order_line rows.now) self.old self.new }
    {
        self.put_text(b"order");
        self.put_fields(rows);
        self.put(b'\n');
    }

    // A space and a letter.
    fn put_letter(&mut self, letter: u8)
        ensures { Adds (32 ∷ letter ∷ []) self.old self.new }
    {
        self.put(b' ');
        self.put(letter);
    }

    // The reader of a read's row.
    fn put_reader(&mut self, kind: u8, p: u8)
        ensures { Adds (reader_text kind p) self.old self.new }
    {
        if matches!(kind, 3 | 4) {
            self.put_field(p as u64);
        }
    }

    // The reading of a row that has one.
    fn put_reading(&mut self, kind: u8, v: u32)
        ensures { Adds (reading_text kind v) self.old self.new }
    {
        if matches!(kind, 1 | 4) {
            self.put_field(v as u64);
        }
    }

    // The line of row k.
    pub fn put_row(&mut self, k: u64, row: u64)
        ensures { Adds (row_line k row) self.old self.new }
    {
        let w = Row::from(row);
        self.put_number(k);
        self.put_letter(letter_of(w.kind));
        self.put_reader(w.kind, w.processor);
        self.put_reading(w.kind, w.value);
        self.put(b'\n');
    }
}

// The letter of a row's kind, which is the papers' number: any word is a row here, of 16 kinds.
fn letter_of(kind: u8) -> u8
    ensures { result ≡ letter_of kind }
{
    match kind {
        1 => b'W',
        2 => b'w',
        3 => b'R',
        _ => b'r',
    }
}
