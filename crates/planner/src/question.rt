// What the planner's functions are asked.
ghost use Rattle.std.specs.Prelude.{ℕ, ◌≡◌, ◌≤◌, ◌<◌, length};
ghost use Rattle.records.specs.Limits.{most_jobs};
ghost use Rattle.records.specs.Jobs.{job_at};
ghost use Rattle.search.specs.Search.{workload as workload_of};

use records::range::Range;
use search::workload::Workload;

// How the quanta of a layer are sought: each job has one of its own.
#[derive(Clone, Copy)]
pub enum QuantaSearch {
    PerJob,
}

// An accepted list and range: the jobs with their utilisations, their number, the range of quanta, and how these are sought.
#[derive(Clone, Copy)]
pub struct Question {
    pub workload: Workload,
    pub n: usize,
    pub range: Range,
    pub search: QuantaSearch,
    ghost table: { length workload.jobs ≡ most_jobs },
    ghost few: { n ≤ most_jobs },
    ghost whole: { workload ≡ workload_of workload.jobs },
    ghost costs: { (k : ℕ) → k < n → 0 < (job_at workload.jobs k).cost },
    ghost low: { 0 < range.low },
    ghost ordered: { range.low ≤ range.high },
}
