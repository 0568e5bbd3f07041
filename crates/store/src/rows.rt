// Storing and restoring.
ghost use Rattle.std.specs.Prelude.{◌≡◌};
ghost use Rattle.storing.specs.Answer.{number_of, Stored, Restored};
ghost use Rattle.storing.specs.Meaning.{StoreSays, RestoreSays};

use super::back::put_log;
use super::matching::matching;
use super::out::{put_bytes, put_rows};
use judge::formed::well_formed;
use judge::rows::right_length;
use storing::Fault;

// Stores a log in strips: its bytes and its rows.
pub fn store(log: &[u64], bytes: &mut [u8], rows: &mut [u64]) -> Result<(), Fault>
    ensures leaves { Stored log.now bytes.old rows.old bytes.new rows.new (number_of result) }
    ensures meaning { StoreSays log.now bytes.old rows.old bytes.new rows.new (number_of result) }
{
    if !right_length(log.len()) {
        return Err(Fault::WrongLength);
    }
    if !well_formed(log) {
        return Err(Fault::Malformed);
    }
    if bytes.len() < log.len() - 1 || rows.len() < log.len() {
        return Err(Fault::NoRoom);
    }
    put_bytes(log, bytes);
    put_rows(log, rows);
    Ok(())
}

// Puts the log back that the strips are of. Whether it is well formed is asked of the strips: question 10 looks at each processor's own rows only,
// and those stand in the same order.
pub fn restore(bytes: &[u8], rows: &[u64], log: &mut [u64]) -> Result<(), Fault>
    ensures leaves { Restored bytes.now rows.now log.old log.new (number_of result) }
    ensures meaning { RestoreSays bytes.now rows.now log.old log.new (number_of result) }
{
    if !matching(bytes, rows) {
        return Err(Fault::Unmatched);
    }
    if !right_length(rows.len()) {
        return Err(Fault::WrongLength);
    }
    if !well_formed(rows) {
        return Err(Fault::Malformed);
    }
    if log.len() < rows.len() {
        return Err(Fault::NoRoom);
    }
    put_log(bytes, rows, log);
    Ok(())
}

// The papers' number of an answer.
fn number_of(answer: Result<(), Fault>) -> u32
    ensures { result ≡ number_of answer }
{
    match answer {
        Ok(()) => 0,
        Err(fault) => fault.number(),
    }
}

// `store` for a host in C: 0, or the number of the question answered no.
pub fn store_strips(rows: &[u64], bytes: &mut [u8], strips: &mut [u64]) -> u32
    ensures leaves { Stored rows.now bytes.old strips.old bytes.new strips.new result }
    ensures meaning { StoreSays rows.now bytes.old strips.old bytes.new strips.new result }
{
    number_of(store(rows, bytes, strips))
}

// `restore` for a host in C.
pub fn restore_strips(bytes: &[u8], strips: &[u64], log: &mut [u64]) -> u32
    ensures leaves { Restored bytes.now strips.now log.old log.new result }
    ensures meaning { RestoreSays bytes.now strips.now log.old log.new result }
{
    number_of(restore(bytes, strips, log))
}
