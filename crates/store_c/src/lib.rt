// Logs stored in strips, for a host in C: what the crate `store` promises, under the names of include/strips.h.
#![tactic(auto)]

ghost use Rattle.storing.specs.Answer.{Stored, Restored};
ghost use Rattle.storing.specs.Meaning.{StoreSays, RestoreSays};

// Stores a log: 0, or the number of the question answered no.
#[unsafe(no_mangle)]
pub extern "C" fn store_strips(rows: &[u64], bytes: &mut [u8], strips: &mut [u64]) -> u32
    ensures leaves { Stored rows.now bytes.old strips.old bytes.new strips.new result }
    ensures meaning { StoreSays rows.now bytes.old strips.old bytes.new strips.new result }
{
    store::rows::store_strips(rows, bytes, strips)
}

// Puts the log back that the strips are of.
#[unsafe(no_mangle)]
pub extern "C" fn restore_strips(bytes: &[u8], strips: &[u64], log: &mut [u64]) -> u32
    ensures leaves { Restored bytes.now strips.now log.old log.new result }
    ensures meaning { RestoreSays bytes.now strips.now log.old log.new result }
{
    store::rows::restore_strips(bytes, strips, log)
}
