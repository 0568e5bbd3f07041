// A sub-step of a read of the first register.
ghost use Rattle.std.specs.Prelude.{◌≡◌, ◌+◌, ◌<◌, ◌≤◌, length};
ghost use Rattle.protocol.specs.Rules.{ticket_rules};
ghost use Rattle.protocol.specs.Read.{moved_on, attempt_step, result_step, since, read_step};
ghost use Rattle.steps.specs.Contract.{TableOk, ReadOk, read_stepped};

use super::cells::{store_word, word_from};
use common::Reader;
use common::others::other_reader;
use kinds::Tickets;
use looks::result::{announcement, ends, plain_cell, shown};
use looks::{looks_again, looks_at_other, looks_first, looks_third, stamp_in};

// A word more, and nothing else.
fn count_word(r: Reader) -> Reader
    requires { r.moved < 200 }
    ensures { result ≡ moved_on r }
{
    Reader {
        active: true,
        moved: r.moved + 1,
        ..r
    }
}

// Sub-step l, from 0, of an attempt.
fn attempt_step(r: Reader, n: u32, p: u32, l: u32, table: &mut [u64]) -> Reader
    requires { TableOk ticket_rules n (length table.old) × ReadOk n p r × (l < n + 3) }
    ensures { read_stepped result table.new ≡ attempt_step n p l r table.old }
{
    let next = count_word(r);
    match l {
        0 => looks_first(next, word_from::<Tickets>(table, n, 0, p)),
        1 => {
            let c = announcement(r.stamp, r.look);
            store_word::<Tickets>(table, n, p, 0, u64::from(c));
            next
        }
        2 => looks_again(next, word_from::<Tickets>(table, n, 0, p)),
        _ if l < n + 2 => {
            let q = other_reader(p, (l - 3) as u8);
            looks_at_other(next, word_from::<Tickets>(table, n, q, p))
        }
        _ => looks_third(next, word_from::<Tickets>(table, n, 0, p)),
    }
}

// Store k, from 0, of the result.
fn result_step(r: Reader, n: u32, p: u32, k: u32, table: &mut [u64]) -> Reader
    requires { TableOk ticket_rules n (length table.old) × ReadOk n p r × (k < n) }
    ensures { read_stepped result table.new ≡ result_step n p k r table.old }
{
    let next = count_word(r);
    if k + 1 < n {
        let q = other_reader(p, k as u8);
        store_word::<Tickets>(table, n, p, q, u64::from(shown(r.result)));
        return next;
    }
    let c = plain_cell(0, stamp_in(r.result));
    store_word::<Tickets>(table, n, p, 0, u64::from(c));
    ends(next)
}

// The words moved in the attempt.
fn words_since(r: Reader, n: u32, p: u32) -> u32
    requires { ReadOk n p r × (n ≤ 16) }
    ensures { result ≡ since n r }
{
    let m = r.moved as u32;
    if r.second { m - (n + 3) } else { m }
}

// A sub-step of reader p's open read.
pub(crate) fn read_step(r: Reader, n: u32, p: u32, table: &mut [u64]) -> Reader
    requires { TableOk ticket_rules n (length table.old) × ReadOk n p r }
    ensures { read_stepped result table.new ≡ read_step n p r table.old }
{
    let l = words_since(r, n, p);
    if l < n + 3 {
        return attempt_step(r, n, p, l, table);
    }
    result_step(r, n, p, l - (n + 3), table)
}
