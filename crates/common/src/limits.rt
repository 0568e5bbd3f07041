// Question 4 of a state's head, and questions 5 and 7.
ghost use Rattle.std.specs.Prelude.{◌≡◌};
ghost use Rattle.words.specs.Counting.{one};
ghost use Rattle.common.specs.Head.{head_ok, is_processor, has_room};

use super::Head;

// 1 for an open operation.
pub fn count_one(active: bool) -> usize
    ensures { result ≡ one active }
{
    active as usize
}

// Whether a head is in range, where so many cells are needed and so many operations are open by count, with a table and a log of these
// lengths.
#[tactic(auto, unfolding(crate::specs::Head::head_ok))]
pub fn head_ok(need: usize, h: Head, count: usize, cells: usize, log: usize) -> bool
    ensures { result ≡ head_ok need h count cells log }
{
    let opens = h.opens as usize;
    1 <= h.n
        && h.n <= 16
        && need <= cells
        && log == h.rows
        && 3 <= h.rows
        && h.rows <= 4096
        && 1 <= h.used
        && opens == count
        && h.used <= h.rows
        && opens <= h.rows - h.used
}

// Whether p is a processor, from the least on.
pub fn is_processor(h: Head, least: u32, p: u32) -> bool
    ensures { result ≡ is_processor h least p }
{
    least <= p && p <= h.n
}

// Whether the free rows are at least the open operations and two.
pub fn has_room(h: Head) -> bool
    ensures { result ≡ has_room h }
{
    h.used <= h.rows && h.opens as usize + 2 <= h.rows - h.used
}
