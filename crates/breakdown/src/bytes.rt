// The parts of bounds as bytes.
ghost use Rattle.std.specs.Prelude.{◌≡◌, [], ◌∷◌, ◌++◌, ◌*◌, ◌≤◌, length, take, drop};
ghost use Rattle.records.specs.Limits.{most_jobs};
ghost use Rattle.records.specs.Records.{long_bytes, written};
ghost use Rattle.breakdown.specs.Breakdowns.{parts_size, parts_bytes};

use crate::block;
use records::job::Job;
use response::parts::Parts;

// The number of amounts of a record.
const AMOUNTS: usize = 5;

// The size of an amount, in bytes.
const AMOUNT_SIZE: usize = 4;

// Writes a number to the first four bytes of an output, the high byte first.
fn put_long(output: &mut [u8], number: u32)
    requires { 4 ≤ length output.old }
    ensures { output.new ≡ long_bytes number ++ drop 4 output.old }
{
    let high = number / 65536;
    let low = number % 65536;
    output[0] = (high / 256) as u8;
    output[1] = (high % 256) as u8;
    output[2] = (low / 256) as u8;
    output[3] = (low % 256) as u8;
}

// Writes the amounts of a record.
fn put_amounts(amounts: [u32; AMOUNTS], output: &mut [u8])
    requires { 20 ≤ length output.old }
    ensures { output.new ≡ written 4 long_bytes amounts output.old }
{
    for (i, amount) in amounts.iter().enumerate() {
        put_long(&mut output[AMOUNT_SIZE * i..], *amount);
    }
}

// Writes the first two bytes of a record; which bound decided is a number there.
fn put_head(output: &mut [u8], instance: u8, which: u8)
    requires { 2 ≤ length output.old }
    ensures { output.new ≡ (instance ∷ which ∷ []) ++ drop 2 output.old }
{
    output[0] = instance;
    output[1] = which;
}

// Writes a record to the first bytes of an output.
fn put_parts(output: &mut [u8], parts: Parts)
    requires { parts_size ≤ length output.old }
    ensures { output.new ≡ parts_bytes parts ++ drop parts_size output.old }
{
    put_head(&mut *output, parts.instance, parts.which);
    let amounts = [
        parts.own,
        parts.share,
        parts.above,
        parts.delay,
        parts.taken,
    ];
    put_amounts(amounts, &mut output[2..]);
}

// Writes the first n records of a table.
pub(crate) fn encode(table: [Parts; Job::MOST], n: usize, output: &mut [u8])
    requires { (n ≤ most_jobs) × (parts_size * n ≤ length output.old) }
    ensures { output.new ≡ written parts_size parts_bytes (take n table) output.old }
{
    for (i, parts) in table[..n].iter().enumerate() {
        put_parts(&mut output[block::PARTS_SIZE * i..], *parts);
    }
}
