// What the key program decides: how much it reads, and for which range it prints the key.
ghost use Rattle.std.specs.Prelude.{◌≡◌, ◌≤◌, length, take};
ghost use Rattle.std.proofs.lemmas.List.Edits.{sets};
ghost use Rattle.text.specs.Keys.{KeyPromise, program_key, program_reads};

use crate::key;
use records::job::Job;

const LOWEST: u8 = 1;

const HIGHEST: u8 = 4;

// Room for what is read of the input. No entry.
pub fn input() -> [u8; Job::SIZE * Job::MOST + 1]
    ensures { length result ≡ program_reads }
{
    [0u8; Job::SIZE * Job::MOST + 1]
}

// The key of what was read, at the start of the output; it gives the text's length. No entry.
pub fn key(input: &[u8], output: &mut [u8; key::SIZE]) -> usize
    ensures { (result ≤ length output.new) × (output.new ≡ sets output.old 0 (program_key input.now)) × KeyPromise input.now 1 4 (take result output.new) }
{
    key::key(input, LOWEST, HIGHEST, output)
}
