// How much a job has brought.
ghost use Rattle.std.specs.Prelude.{◌≤◌};
ghost use Rattle.foundation.specs.Job.{max_job_n};
ghost use Rattle.job_sizes.specs.Sizes.{job_entries};

// n rows with their right sides, n + 1 starts, so many entries with their values, and the rows that P has named (none or n). They lie within the stores.
#[derive(Clone, Copy)]
pub struct Sizes {
    pub n: usize,
    pub entries: usize,
    pub chosen: usize,
    pub ghost small: { n ≤ max_job_n },
    pub ghost few: { entries ≤ job_entries },
    pub ghost picked: { chosen ≤ n },
}
