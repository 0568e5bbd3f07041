// Sets of tickets, each a u64, as the state that C sees has them.
ghost use Rattle.std.specs.Prelude.{◌≡◌};
ghost use Rattle.protocol.specs.Tickets.{with_ticket, with_cell, smallest_out, through, walk_on};

use words::cell::Cell;

// The set with one ticket more; none, 63, adds nothing.
#[tactic(auto, unfolding(protocol::specs::Tickets::with_ticket))]
pub fn with_ticket(set: u64, ticket: u8) -> u64
    ensures { result ≡ with_ticket set ticket }
{
    if ticket < 63 {
        set | (1 << ticket)
    } else {
        set
    }
}

// The set with the three tickets that a reader's cell excludes.
pub fn with_cell(set: u64, c: Cell) -> u64
    ensures { result ≡ with_cell set c }
{
    let set = with_ticket(set, c.stamp.prev);
    let set = with_ticket(set, c.announced.cur);
    with_ticket(set, c.announced.prev)
}

// The smallest ticket that is not in the set, or 64, which is above any: the comparison behind it needs no other case.
fn smallest_out(set: u64) -> u32
    ensures { result ≡ smallest_out 64 set }
{
    (!set).trailing_zeros()
}

// The tickets up to one; up to none, 63, all.
#[tactic(auto, using(protocol::proofs::Tickets::two_shifted), unfolding(protocol::specs::Tickets::through))]
fn through(ticket: u8) -> u64
    ensures { result ≡ through ticket }
{
    if ticket >= 63 {
        u64::MAX
    } else {
        (2 << ticket) - 1
    }
}

// The new ticket: the smallest above cur and up to top that is not in the set; if there is none above, the smallest that is not.
#[tactic(auto, unfolding(protocol::specs::Tickets::walk_on))]
pub fn walk_on(set: u64, cur: u8, top: u32) -> u32
    ensures { result ≡ walk_on top cur set }
{
    let above = smallest_out(set | through(cur));
    if above <= top {
        above
    } else {
        smallest_out(set)
    }
}
