// Slices of more jobs than a table has, for the edit alone: the product's own readers and writers, a table and what is past it.
use desk::held::ROOM;
use records::job::Job;
use records::record;

// The bytes of a table of jobs, and those of ROOM jobs.
pub const TABLE: usize = Job::SIZE * Job::MOST;

pub const SLICE: usize = Job::SIZE * ROOM;

// The jobs of a slice's records, not judged; blank past them.
pub fn jobs_in(block: &[u8]) -> [Job; ROOM] {
    let mut jobs = [Job::BLANK; ROOM];
    jobs[..Job::MOST].copy_from_slice(&record::read(block));
    if TABLE < block.len() {
        let rest = record::read(&block[TABLE..]);
        jobs[Job::MOST..].copy_from_slice(&rest[..ROOM - Job::MOST]);
    }
    jobs
}

// The records of ROOM jobs.
pub fn job_bytes(jobs: [Job; ROOM]) -> [u8; SLICE] {
    let mut bytes = [0u8; SLICE];
    let _ = record::write(&jobs, &mut bytes);
    bytes
}
