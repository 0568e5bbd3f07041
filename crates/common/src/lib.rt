// What both registers share: their answers and their state here, the calls and the book in specs/.
#![tactic(auto)]

use words::stamp::Stamp;

pub mod numbers; // answers as words
pub mod calls; // calls, and calls in words
pub mod limits; // question 4 of a state's head, and questions 5 and 7
pub mod rows; // rows of the log
pub mod others; // the other readers

// The questions that are answered no: document 01's 1 to 8, 13 of a retired reader, and 14 of the counted register.
#[derive(Clone, Copy, Debug, PartialEq, Eq)]
pub enum Refusal {
    Readers,
    Cells,
    Rows,
    Range,
    Processor,
    Busy,
    Full,
    Idle,
    Retired,
    Spent,
}

// What a call that is not refused has done: set up, begun or retired; or made a sub-step, of this number. A call's answer is a
// Result<Done, Refusal>.
#[derive(Clone, Copy, Debug, PartialEq, Eq)]
pub enum Done {
    Accepted,
    Moved(u8),
}

// The head of a state: whether it is the counted register's, the number of open operations, those of retired readers left out, the number
// of readers, the log's length and its used rows. The number of open operations is second since there it makes the state no larger.
#[repr(C)]
#[derive(Clone, Copy, Debug, PartialEq, Eq)]
pub struct Head {
    pub counted: bool,
    pub opens: u8,
    pub n: u32,
    pub rows: usize,
    pub used: usize,
}

// The writer: of an open write the value and the words moved. The stamp of its last ended write: of the first register a pair of tickets,
// beside which an open write has the tickets excluded by the cells read so far and, once it is taken, the new ticket; of the counted
// register a count.
#[repr(C)]
#[derive(Clone, Copy, Debug, PartialEq, Eq)]
pub struct Writer {
    pub active: bool,
    pub moved: u8,
    pub value: u32,
    pub excluded: u64,
    pub ticket: u8,
    pub stamp: Stamp,
    pub count: u32,
}

// A reader: whether it is retired; of an open read the words moved and the result so far, a cell's word. Of the first register besides:
// its own stamp; whether the read is in its second attempt; of the attempt the word of its first look, whether the second look had the
// same stamp, and whether another reader's cell was found, which is then the result, and at the end that of the value and stamp to
// store.
#[repr(C)]
#[derive(Clone, Copy, Debug, PartialEq, Eq)]
pub struct Reader {
    pub retired: bool,
    pub active: bool,
    pub second: bool,
    pub moved: u8,
    pub stamp: Stamp,
    pub look: u64,
    pub agree: bool,
    pub found: bool,
    pub result: u64,
}

// The state of either register. Of the readers the first n count.
#[repr(C)]
#[derive(Clone, Copy, Debug, PartialEq, Eq)]
pub struct State {
    pub head: Head,
    pub writer: Writer,
    pub readers: [Reader; 16],
}
