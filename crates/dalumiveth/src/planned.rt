// `planning::plan` for callers in other languages.
ghost use Rattle.foundation.specs.Pattern.{lent};
ghost use Rattle.answers.specs.Stores.{plan_stores, work_stores};
ghost use Rattle.dalumiveth.specs.Calls.{PlanTold};

use numbers::tell_plan;
use planning::plan;

// The plan of a pattern (`planning::plan`). Ten numbers: 0, 0 and the eight counts, or the refusal's number and step.
#[unsafe(no_mangle)]
pub extern "C" fn dalumiveth_plan(
    most: usize,
    n: usize,
    height: usize,
    starts: &[usize],
    columns: &[usize],
    l_subs: &mut [usize],
    l_starts: &mut [usize],
    l_slots: &mut [usize],
    u_subs: &mut [usize],
    u_starts: &mut [usize],
    u_slots: &mut [usize],
    row_heads: &mut [usize],
    row_links: &mut [usize],
    set_heads: &mut [usize],
    set_links: &mut [usize],
    list: &mut [usize],
    spare: &mut [usize],
    answer: &mut [usize],
) -> usize
    ensures { PlanTold result most (lent n height starts.now columns.now)
        (plan_stores l_subs.old l_starts.old l_slots.old u_subs.old u_starts.old u_slots.old)
        (plan_stores l_subs.new l_starts.new l_slots.new u_subs.new u_starts.new u_slots.new)
        (work_stores row_heads.old row_links.old set_heads.old set_links.old list.old spare.old)
        (work_stores row_heads.new row_links.new set_heads.new set_links.new list.new spare.new)
        answer.old answer.new }
{
    let answered = plan(
        most, n, height, starts, columns, l_subs, l_starts, l_slots, u_subs, u_starts, u_slots,
        row_heads, row_links, set_heads, set_links, list, spare,
    );
    tell_plan(answered, answer)
}
