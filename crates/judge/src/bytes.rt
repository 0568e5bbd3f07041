// The judge for the boards' host, which is C: a log as bytes, eight a row, most significant first.
ghost use Rattle.std.specs.Prelude.{◌≡◌};
ghost use Rattle.judging.specs.Answer.{bytes_number};
ghost use Rattle.judging.specs.Meaning.{BytesMean};

use super::rows::number;

// 0, or the number of the question answered no: 9, 10 or 12. A length that is not a multiple of 8 is 9, as no rows are.
pub fn judge_bytes(bytes: &[u8]) -> u32
    ensures number { result ≡ bytes_number bytes.now }
    ensures meaning { BytesMean bytes.now result }
{
    let mut rows = [0u64; 4096];
    let count = logbytes::rows_in(bytes, &mut rows);
    number(&rows[..count])
}
