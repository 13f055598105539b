// What each command of a job does, and how far reading has come. A command is given its operands and all that follows them; a function touches its own
// stores only, and its contract holds whatever the others are.
#![tactic(auto)]

ghost use Rattle.std.specs.Prelude.{◌≡◌, [], ◌∷◌, ◌+◌, ◌*◌, ◌<◌, ◌≤◌, length, take};
ghost use Rattle.foundation.specs.Job.{nothing_read, read_n, read_r, read_e, read_b, read_p, read_z, max_job_bytes, max_job_n};
ghost use Rattle.job_sizes.specs.Sizes.{job_entries, more_than_n};
ghost use Rattle.job_commands.specs.Stores.{JobStores, with_entries, with_ends, with_rows};
ghost use Rattle.job_commands.specs.Progress.{state, going_on, ending, NoLonger};

mod progress;
mod refusal;
mod stores;

use job_operands::{split_f64, split_u16};
use job_sizes::LARGEST_N;
pub use progress::Progress;
pub use refusal::JobRefusal;
pub use stores::LentStores;

// Nothing is read yet.
pub fn nothing_read(job: &[u8]) -> Progress<'_>
    requires { length job.now ≤ max_job_bytes }
    ensures bytes { result.bytes.now ≡ job.now }
    ensures value { (s : JobStores) → take 1 s.starts ≡ 0 ∷ [] → state result s ≡ nothing_read }
{
    Progress {
        bytes: job,
        n: 0,
        opened: false,
        closed: 0,
        entries: 0,
        chosen: 0,
    }
}

// N and n: 1 if n is 0 or above 128.
pub fn read_n<'a>(mut p: Progress<'a>) -> Result<Progress<'a>, JobRefusal>
    requires { p.n ≡ 0 }
    ensures value { (s : JobStores) → going_on result s ≡ read_n (state p.entry s) p.entry.bytes.now }
    ensures shorter { NoLonger p.entry result }
{
    let (n, rest) = split_u16(p.bytes).ok_or(JobRefusal::CutShort)?;
    if n == 0 || LARGEST_N < n {
        return Err(JobRefusal::Limits);
    }
    p.bytes = rest;
    p.n = n;
    p.opened = false;
    Ok(p)
}

// R and a row, which has to be the next one.
pub fn read_r<'a>(mut p: Progress<'a>) -> Result<Progress<'a>, JobRefusal>
    requires { p.closed < p.n }
    ensures value { (s : JobStores) → p.entry.closed ≤ length s.right → going_on result s ≡ read_r (state p.entry s) p.entry.bytes.now }
    ensures shorter { NoLonger p.entry result }
{
    let (row, rest) = split_u16(p.bytes).ok_or(JobRefusal::CutShort)?;
    if row != p.closed + 1 {
        return Err(JobRefusal::Misplaced);
    }
    p.bytes = rest;
    p.opened = true;
    Ok(p)
}

// E, a column and a value.
pub fn read_e<'a>(
    mut p: Progress<'a>,
    columns: &mut [usize],
    values: &mut [f64],
) -> Result<Progress<'a>, JobRefusal>
    requires row_left { p.closed < p.n }
    requires byte_used { 11 * p.entries + length p.bytes.now < max_job_bytes }
    requires room { (job_entries ≤ length columns.old) × (job_entries ≤ length values.old) }
    ensures value { (s : JobStores) → going_on result (with_entries s columns.new values.new)
        ≡ read_e (state p.entry (with_entries s columns.old values.old)) p.entry.bytes.now }
    ensures shorter { NoLonger p.entry result }
{
    let (column, rest) = split_u16(p.bytes).ok_or(JobRefusal::CutShort)?;
    let (value, rest) = split_f64(rest).ok_or(JobRefusal::CutShort)?;
    columns[p.entries] = column;
    values[p.entries] = value;
    p.bytes = rest;
    p.entries += 1;
    p.opened = true;
    Ok(p)
}

// B and a right side: the row is closed.
pub fn read_b<'a>(
    mut p: Progress<'a>,
    starts: &mut [usize],
    right: &mut [f64],
) -> Result<Progress<'a>, JobRefusal>
    requires row_left { p.closed < p.n }
    requires room { (more_than_n ≤ length starts.old) × (max_job_n ≤ length right.old) }
    ensures value { (s : JobStores) → p.entry.entries ≤ length s.columns → going_on result (with_ends s starts.new right.new)
        ≡ read_b (state p.entry (with_ends s starts.old right.old)) p.entry.bytes.now }
    ensures shorter { NoLonger p.entry result }
{
    let (side, rest) = split_f64(p.bytes).ok_or(JobRefusal::CutShort)?;
    starts[p.closed + 1] = p.entries;
    right[p.closed] = side;
    p.bytes = rest;
    p.closed += 1;
    p.opened = false;
    Ok(p)
}

// P and a row.
pub fn read_p<'a>(mut p: Progress<'a>, rows: &mut [usize]) -> Result<Progress<'a>, JobRefusal>
    requires row_left { p.chosen < p.n }
    requires room { max_job_n ≤ length rows.old }
    ensures value { (s : JobStores) → going_on result (with_rows s rows.new) ≡ read_p (state p.entry (with_rows s rows.old)) p.entry.bytes.now }
    ensures shorter { NoLonger p.entry result }
{
    let (row, rest) = split_u16(p.bytes).ok_or(JobRefusal::CutShort)?;
    rows[p.chosen] = row;
    p.bytes = rest;
    p.chosen += 1;
    p.opened = false;
    Ok(p)
}

// Z: nothing may follow it.
pub fn read_z(p: Progress) -> Result<(), JobRefusal>
    ensures { (s : JobStores) → ending result p.entry s ≡ read_z (state p.entry s) p.entry.bytes.now }
{
    match p.bytes {
        [] => Ok(()),
        _ => Err(JobRefusal::BytesBehind),
    }
}
