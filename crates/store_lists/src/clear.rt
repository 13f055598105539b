// Stores are cleared: those of a plan before its steps and after a refusal, the work stores after every call.
ghost use Rattle.answers.specs.Stores.{WorkLeft, work_stores};
ghost use Rattle.store_clear.specs.Clearing.{Zeros};
ghost use Rattle.store_lists.specs.Clearing.{SideZeros};

use store_clear::clear;

// The three stores of a side are cleared.
pub fn clear_side(subs: &mut [usize], starts: &mut [usize], slots: &mut [usize])
    ensures { SideZeros subs.old starts.old slots.old
        subs.new starts.new slots.new }
{
    clear(subs);
    clear(starts);
    clear(slots);
}

// The two stores of chains are cleared: every chain is empty.
pub fn clear_chains(heads: &mut [usize], links: &mut [usize])
    ensures { Zeros heads.old heads.new × Zeros links.old links.new }
{
    clear(heads);
    clear(links);
}

// The six work stores are cleared.
pub fn clear_work(
    row_heads: &mut [usize],
    row_links: &mut [usize],
    set_heads: &mut [usize],
    set_links: &mut [usize],
    list: &mut [usize],
    spare: &mut [usize],
)
    ensures { WorkLeft
        (work_stores row_heads.old row_links.old set_heads.old set_links.old
        list.old spare.old)
        (work_stores row_heads.new row_links.new set_heads.new set_links.new
        list.new spare.new) }
{
    clear(row_heads);
    clear(row_links);
    clear(set_heads);
    clear(set_links);
    clear(list);
    clear(spare);
}
