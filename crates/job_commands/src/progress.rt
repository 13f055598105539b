// How far reading has come.
ghost use Rattle.std.specs.Prelude.{◌≡◌, true, ◌+◌, ◌*◌, ◌<◌, ◌≤◌, length};
ghost use Rattle.foundation.specs.Job.{max_job_bytes, max_job_n};

// `bytes` are left; `n` is 0 before N, and `opened` says whether a row is open, as in the definition's record of what was read; `closed` rows are closed, `entries` entries and
// `chosen` rows of P were read. An entry takes 11 bytes.
#[derive(Clone, Copy)]
pub struct Progress<'a> {
    pub bytes: &'a [u8],
    pub n: usize,
    pub opened: bool,
    pub closed: usize,
    pub entries: usize,
    pub chosen: usize,
    pub ghost small: { n ≤ max_job_n },
    pub ghost rows_left: { closed ≤ n },
    pub ghost row_left: { opened ≡ true → closed < n },
    pub ghost picked: { chosen ≤ n },
    pub ghost bytes_used: { 11 * entries + length bytes.now ≤ max_job_bytes },
}
