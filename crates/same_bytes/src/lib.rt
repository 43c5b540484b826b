// The test for same bytes: each record of four bytes as one number, the bytes after the last whole record one by one.
#![tactic(auto)]

ghost use Rattle.std.specs.Prelude.{◌≡◌, ◌≤◌, length};
ghost use Rattle.same_bytes.specs.Same.{same_bytes, same_between, record_size, record_number, number_of, WholeRecords, PartSize, InParts};

const RECORD_SIZE: usize = 4;

// The sizes of parts. Within a part the test goes on past a difference, so that the compiler takes several records at once.
const LONG_PART: usize = 64;

const SHORT_PART: usize = 16;

// Four bytes as a number, the low byte first, as the machine has them.
fn record_number(first: u8, second: u8, third: u8, fourth: u8) -> u32
    ensures { result ≡ record_number first second third fourth }
{
    first as u32 + second as u32 * 256 + third as u32 * 65536 + fourth as u32 * 16777216
}

// The number of the record that the bytes begin with. The places are constants, so that the compiler makes one load of four bytes.
fn number_of(bytes: &[u8]) -> u32
    requires { record_size ≤ length bytes.now }
    ensures { result ≡ number_of bytes.now }
{
    record_number(bytes[0], bytes[1], bytes[2], bytes[3])
}

// Whether two blocks of whole records are the same bytes. The bits in which records differ are gathered, with no branch between records.
fn same_records(a: &[u8], b: &[u8]) -> bool
    requires { WholeRecords a.now b.now }
    ensures { result ≡ same_bytes a.now b.now }
{
    let mut differences: u32 = 0;
    for (x, y) in a.chunks_exact(RECORD_SIZE).zip(b.chunks_exact(RECORD_SIZE)) {
        differences |= number_of(x) ^ number_of(y);
    }
    differences == 0
}

// Whether two blocks are the same bytes from a place up to an end, part by part. A part is lent by itself, so that its length is a constant
// to the compiler.
fn same_parts(a: &[u8], b: &[u8], from: usize, end: usize, size: usize) -> bool
    requires { PartSize size × InParts size from end a.now b.now }
    ensures { result ≡ same_between a.now b.now from end }
{
    // A block of a few records has no part of some size, and this question is cheaper than two iterators over nothing.
    if from == end {
        return true;
    }
    for (x, y) in a[from..end]
        .chunks_exact(size)
        .zip(b[from..end].chunks_exact(size))
    {
        if !same_records(x, y) {
            return false;
        }
    }
    true
}

// Whether two blocks are the same bytes, one byte at a time. No entry, though it has the entry's contract.
pub fn same_singly(a: &[u8], b: &[u8]) -> bool
    ensures { result ≡ same_bytes a.now b.now }
{
    a.len() == b.len() && a.iter().zip(b).all(|(x, y)| x == y)
}

// Whether two blocks are the same bytes: long parts first, then short ones, then records, then bytes.
pub fn same_bytes(a: &[u8], b: &[u8]) -> bool
    ensures { result ≡ same_bytes a.now b.now }
{
    let length = a.len();
    if b.len() != length {
        return false;
    }
    let long = length / LONG_PART * LONG_PART;
    let short = length / SHORT_PART * SHORT_PART;
    let records = length / RECORD_SIZE * RECORD_SIZE;
    if !same_parts(a, b, 0, long, LONG_PART) {
        return false;
    }
    if !same_parts(a, b, long, short, SHORT_PART) {
        return false;
    }
    if !same_parts(a, b, short, records, RECORD_SIZE) {
        return false;
    }
    // Blocks of jobs, of a configuration and of kernel records leave no bytes.
    if records == length {
        return true;
    }
    same_singly(&a[records..], &b[records..])
}
