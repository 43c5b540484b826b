// Writes the parts of bounds.
ghost use Rattle.std.specs.Prelude.{◌≡◌, take};
ghost use Rattle.records.specs.Refusals.{counted};
ghost use Rattle.records.specs.Records.{write_records};
ghost use Rattle.breakdown.specs.Breakdowns.{parts_size, parts_bytes};

use crate::bytes;
use records::job::Job;
use records::refusal::Refusal;
use response::parts::Parts;

// The size of the record of a bound's parts, in bytes.
pub const PARTS_SIZE: usize = 22;

// Writes the first n records of a table. No entry; it judges the room alone (12), and for n past 8 it writes all 8 entries. It is no
// `ToRecord`, since `Parts` and the trait lie in crates below, and what the bytes of parts are is defined here.
pub fn write_parts(parts: [Parts; Job::MOST], n: usize, output: &mut [u8]) -> Result<usize, Refusal>
    ensures { (counted result, output.new) ≡ write_records parts_size parts_bytes (take n parts) output.old }
{
    let count = Job::at_most(n);
    let size = PARTS_SIZE * count;
    if output.len() < size {
        return Err(Refusal::OutputLength);
    }
    bytes::encode(parts, count, &mut *output);
    Ok(size)
}
