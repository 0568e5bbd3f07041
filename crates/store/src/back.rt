// The log, from its strips.
ghost use Rattle.std.specs.Prelude.{◌≡◌, ◌≤◌, T, length};
ghost use Rattle.judging.specs.Answer.{laid};
ghost use Rattle.storing.specs.Strips.{log_of, matched};

use super::count::put_starts;

// Puts the log's rows: each byte takes the next row of the processor that it names.
pub(crate) fn put_log(bytes: &[u8], rows: &[u64], log: &mut [u64])
    requires { T (matched bytes.now rows.now) × (length rows.now ≤ 4096) × (length rows.now ≤ length log.old) }
    ensures { log.new ≡ laid (log_of bytes.now rows.now) log.old }
{
    let mut next = [0usize; 256];
    put_starts(bytes, &mut next);
    log[0] = rows[0];
    for (k, byte) in bytes.iter().enumerate() {
        let p = usize::from(*byte);
        log[k + 1] = rows[next[p]];
        next[p] += 1;
    }
}
