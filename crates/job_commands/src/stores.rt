// The stores that a job is read into.
ghost use Rattle.std.specs.Prelude.{◌≤◌, length};
ghost use Rattle.foundation.specs.Job.{max_job_n};
ghost use Rattle.job_sizes.specs.Sizes.{job_entries, more_than_n};

// Five stores, lent, with room for every job.
#[derive(Drop)]
pub struct LentStores<'a> {
    pub starts: &'a mut [usize],
    pub columns: &'a mut [usize],
    pub values: &'a mut [f64],
    pub right: &'a mut [f64],
    pub rows: &'a mut [usize],
    pub ghost starts_room: { more_than_n ≤ length starts.now },
    pub ghost columns_room: { job_entries ≤ length columns.now },
    pub ghost values_room: { job_entries ≤ length values.now },
    pub ghost right_room: { max_job_n ≤ length right.now },
    pub ghost rows_room: { max_job_n ≤ length rows.now },
}
