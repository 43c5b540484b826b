// Records of one fixed size, one after the other in a block: how a kind of record says what it is, and the one reader and writer of all.
ghost use Rattle.std.specs.Prelude.{◌≡◌, ◌*◌, ◌/◌, ◌<◌, ◌≤◌, ℕ, List, length, min, take};
ghost use Rattle.std.proofs.Common.{rules};
ghost use Rattle.records.specs.Limits.{most_jobs};
ghost use Rattle.records.specs.Refusals.{counted};
ghost use Rattle.records.specs.Records.{chunks, table, word_bytes, write_records};
ghost use Rattle.records.specs.RecordLaws.{word-width};

use crate::job::Job;
use crate::refusal::Refusal;

// A kind of record that is written, SIZE bytes long. No entry; it judges nothing.
pub trait ToRecord<const SIZE: usize>: Copy {
    // The bytes of a record.
    ghost bytes: { Self → List ℕ };

    fn to_bytes(self) -> [u8; SIZE]
        ensures { result ≡ bytes self };

    ghost sized: { 0 < SIZE };

    ghost width: { (self : Self) → length (bytes self) ≡ SIZE };
}

// A kind of record that is read, SIZE bytes long. No entry; it judges nothing.
pub trait FromRecord<const SIZE: usize>: Copy {
    // The record that a block begins with, and what stands in a table where there is none.
    ghost read: { List ℕ → Self };

    ghost blank: { Self };

    fn blank() -> Self
        ensures { result ≡ blank };

    fn from_bytes(bytes: &[u8; SIZE]) -> Self
        ensures { result ≡ read bytes.now };

    ghost sized: { (0 < SIZE) × (SIZE < 256) };

    // What stands past the record's own bytes is not looked at.
    ghost own: { (block : List ℕ) → SIZE ≤ length block → read (take SIZE block) ≡ read block };
}

// The records of a block. No entry; it judges nothing: its whole records count, as far as a table has entries, and past them it is blank.
pub fn read<const SIZE: usize, R: FromRecord<SIZE>>(block: &[u8]) -> [R; Job::MOST]
    ensures { result ≡ table most_jobs R.blank (chunks SIZE R.read (min (length block.now / SIZE) most_jobs) block.now) }
{
    let (parts, _) = block.as_chunks::<SIZE>();
    let count = Job::at_most(parts.len());
    let mut table = [R::blank(); Job::MOST];
    for i in 0..count {
        table[i] = R::from_bytes(&parts[i]);
    }
    table
}

// Writes records as a block. No entry; it judges the room alone (12).
pub fn write<const SIZE: usize, R: ToRecord<SIZE>>(
    records: &[R],
    output: &mut [u8],
) -> Result<usize, Refusal>
    ensures { (counted result, output.new) ≡ write_records SIZE R.bytes records.now output.old }
{
    if output.len() / SIZE < records.len() {
        return Err(Refusal::OutputLength);
    }
    for i in 0..records.len() {
        output[SIZE * i..SIZE * (i + 1)].copy_from_slice(&records[i].to_bytes());
    }
    Ok(SIZE * records.len())
}

// A number of two bytes, the high byte first.
impl ToRecord<2> for u16 {
    ghost bytes = { word_bytes };

    ghost sized = { Prim.search rules };

    ghost width = { word-width };

    fn to_bytes(self) -> [u8; 2] {
        self.to_be_bytes()
    }
}
