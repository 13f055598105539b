// Which command may stand where: N first; E and B in a row; R between rows while one is left; P and Z after all rows.
#![tactic(auto)]

ghost use Rattle.std.specs.Prelude.{◌≡◌, ◌+◌, ◌*◌, ◌<◌, ◌≤◌, length, IfOk, MatchOption};
ghost use Rattle.foundation.specs.Job.{command, next, max_job_bytes};
ghost use Rattle.job_commands.specs.Stores.{lists_in, SameStores};
ghost use Rattle.job_commands.specs.Progress.{state, next_of};
ghost use Rattle.job_order.specs.Standing.{StandsAt, none_or_all};

use job_commands::{
    JobRefusal, LentStores, Progress, read_b, read_e, read_n, read_p, read_r, read_z,
};

// Where reading stands.
#[derive(Clone, Copy, PartialEq, Eq)]
enum Stage {
    // nothing is read yet
    First,
    // a row is open
    InRow,
    // no row is open, and one is left
    BetweenRows,
    // all rows are closed
    AfterRows,
}

fn stage_of(p: Progress) -> Stage
    ensures { StandsAt result p.entry }
{
    if p.n == 0 {
        Stage::First
    } else if p.opened {
        Stage::InRow
    } else if p.closed < p.n {
        Stage::BetweenRows
    } else {
        Stage::AfterRows
    }
}

// P has named no row, or all of them.
fn named_none_or_all(p: Progress) -> bool
    ensures { result ≡ none_or_all p.entry }
{
    p.chosen == 0 || p.chosen == p.n
}

// The command of this byte, whose operands and all that follows them are left.
fn read_command<'a>(
    byte: u8,
    p: Progress<'a>,
    stores: &mut LentStores,
) -> Result<Option<Progress<'a>>, JobRefusal>
    requires { 11 * p.entries + length p.bytes.now < max_job_bytes }
    ensures value { next_of result p.entry (lists_in stores.new) ≡ command (state p.entry (lists_in stores.old)) byte p.entry.bytes.now }
    ensures same { SameStores stores.old stores.new }
    ensures onward { IfOk result (λ o. MatchOption o (p.entry.closed ≡ p.entry.n) (λ q. length q.bytes.now ≤ length p.entry.bytes.now)) }
{
    match (stage_of(p), byte) {
        (Stage::First, b'N') => read_n(p).map(Some),
        (Stage::InRow, b'E') => read_e(p, stores.columns, stores.values).map(Some),
        (Stage::InRow, b'B') => read_b(p, stores.starts, stores.right).map(Some),
        (Stage::BetweenRows, b'R') => read_r(p).map(Some),
        (Stage::AfterRows, b'P') if p.chosen < p.n => read_p(p, stores.rows).map(Some),
        (Stage::AfterRows, b'Z') if named_none_or_all(p) => read_z(p).map(|()| None),
        _ => Err(JobRefusal::Misplaced),
    }
}

// The next command.
pub fn read_next<'a>(
    p: Progress<'a>,
    stores: &mut LentStores,
) -> Result<Option<Progress<'a>>, JobRefusal>
    ensures value { next_of result p.entry (lists_in stores.new) ≡ next (state p.entry (lists_in stores.old)) p.entry.bytes.now }
    ensures same { SameStores stores.old stores.new }
    ensures onward { IfOk result (λ o. MatchOption o (p.entry.closed ≡ p.entry.n) (λ q. length q.bytes.now < length p.entry.bytes.now)) }
{
    let (byte, rest) = p.bytes.split_first().ok_or(JobRefusal::CutShort)?;
    let mut behind = p;
    behind.bytes = rest;
    read_command(*byte, behind, stores)
}
