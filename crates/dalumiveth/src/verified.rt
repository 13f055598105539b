// `planning::verify` for callers in other languages.
ghost use Rattle.foundation.specs.Pattern.{lent};
ghost use Rattle.answers.specs.Stores.{plan_stores, work_stores};
ghost use Rattle.dalumiveth.specs.Calls.{lent_from, VerifyTold};

use numbers::{counts_from, tell_verify};
use planning::verify;

// Whether a lent plan is this pattern's (`planning::verify`). Two numbers: 0 and 0, or the refusal's number and step.
#[unsafe(no_mangle)]
pub extern "C" fn dalumiveth_verify(
    most: usize,
    n: usize,
    height: usize,
    starts: &[usize],
    columns: &[usize],
    counts: &[usize],
    l_subs: &[usize],
    l_starts: &[usize],
    l_slots: &[usize],
    u_subs: &[usize],
    u_starts: &[usize],
    u_slots: &[usize],
    row_heads: &mut [usize],
    row_links: &mut [usize],
    set_heads: &mut [usize],
    set_links: &mut [usize],
    list: &mut [usize],
    spare: &mut [usize],
    answer: &mut [usize],
) -> usize
    ensures { VerifyTold result most (lent n height starts.now columns.now)
        (lent_from counts.now (plan_stores l_subs.now l_starts.now l_slots.now u_subs.now u_starts.now u_slots.now))
        (work_stores row_heads.old row_links.old set_heads.old set_links.old list.old spare.old)
        (work_stores row_heads.new row_links.new set_heads.new set_links.new list.new spare.new)
        answer.old answer.new }
{
    let plan_counts = counts_from(counts);
    let answered = verify(
        most,
        n,
        height,
        starts,
        columns,
        plan_counts,
        l_subs,
        l_starts,
        l_slots,
        u_subs,
        u_starts,
        u_slots,
        row_heads,
        row_links,
        set_heads,
        set_links,
        list,
        spare,
    );
    tell_verify(answered, answer)
}
