// The judge for a host in C: what the crate `judge` promises, under the names of include/judge.h.
#![tactic(auto)]

ghost use Rattle.std.specs.Prelude.{◌≡◌, length};
ghost use Rattle.judging.specs.Answer.{bytes_number, answer_word, answer_of, order_of};
ghost use Rattle.judging.specs.Meaning.{BytesMean};

// 0, or the number of the question answered no: 9, 10 or 12. A length that is not a multiple of 8 is 9, as no rows are.
#[unsafe(no_mangle)]
pub extern "C" fn judge_bytes(bytes: &[u8]) -> u32
    ensures number { result ≡ bytes_number bytes.now }
    ensures meaning { BytesMean bytes.now result }
{
    judge::bytes::judge_bytes(bytes)
}

// The verdict as a word, and the order in the lent places.
#[unsafe(no_mangle)]
pub extern "C" fn judge_rows(rows: &[u64], order: &mut [u64]) -> u64
    ensures word { result ≡ answer_word (answer_of rows.now (length order.old)) }
    ensures order { order.new ≡ order_of rows.now order.old }
{
    judge::rows::judge_rows(rows, order)
}
