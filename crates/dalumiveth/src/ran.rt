// `elimination::run` for callers in other languages.
ghost use Rattle.foundation.specs.Pattern.{lent};
ghost use Rattle.answers.specs.RunStores.{lending_of, run_stores};
ghost use Rattle.answers.specs.Runs.{chosen_by};
ghost use Rattle.answers.specs.Stores.{plan_stores};
ghost use Rattle.elimination.specs.Calls.{run_work};
ghost use Rattle.numbers.specs.Numbered.{extent_from};
ghost use Rattle.dalumiveth.specs.Calls.{choice_from, lent_from, RunTold};

use crate::choices::choice_from;
use elimination::run;
use numbers::{counts_from, extent_from, tell_run};

// A run (`elimination::run`): by the largest entry where `by_list` is 0, else by the rows given; whole where `cut` is 0, else its first `steps` steps.
// Three numbers: 0, 0 and the updates, or the refusal's number and step.
#[unsafe(no_mangle)]
pub extern "C" fn dalumiveth_run(
    most: usize,
    n: usize,
    height: usize,
    starts: &[usize],
    columns: &[usize],
    counts: &[usize],
    l_subs: &[usize],
    l_starts: &[usize],
    l_slots: &[usize],
    u_subs: &[usize],
    u_starts: &[usize],
    u_slots: &[usize],
    values: &[f64],
    right: &[f64],
    by_list: usize,
    rows: &[usize],
    cut: usize,
    steps: usize,
    l: &mut [f64],
    u: &mut [f64],
    d: &mut [f64],
    x: &mut [f64],
    pivots: &mut [usize],
    row_heads: &mut [usize],
    row_links: &mut [usize],
    set_heads: &mut [usize],
    set_links: &mut [usize],
    list: &mut [usize],
    spare: &mut [usize],
    copy: &mut [f64],
    dense: &mut [f64],
    answer: &mut [usize],
) -> usize
    ensures { RunTold result most (lent n height starts.now columns.now)
        (lent_from counts.now (plan_stores l_subs.now l_starts.now l_slots.now u_subs.now u_starts.now u_slots.now))
        (chosen_by (choice_from by_list) rows.now) (extent_from cut steps) (lending_of values.now right.now l.old u.old d.old x.old pivots.old)
        (run_stores l.new u.new d.new x.new pivots.new)
        (run_work row_heads.old row_links.old set_heads.old set_links.old list.old spare.old copy.old dense.old)
        (run_work row_heads.new row_links.new set_heads.new set_links.new list.new spare.new copy.new dense.new)
        answer.old answer.new }
{
    let plan_counts = counts_from(counts);
    let choice = choice_from(by_list);
    let extent = extent_from(cut, steps);
    let answered = run(
        most,
        n,
        height,
        starts,
        columns,
        plan_counts,
        l_subs,
        l_starts,
        l_slots,
        u_subs,
        u_starts,
        u_slots,
        values,
        right,
        choice,
        rows,
        extent,
        l,
        u,
        d,
        x,
        pivots,
        row_heads,
        row_links,
        set_heads,
        set_links,
        list,
        spare,
        copy,
        dense,
    );
    tell_run(answered, answer)
}
