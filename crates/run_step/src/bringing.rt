// The pivot row brought to row k.
ghost use Rattle.answers.specs.Stores.{plan_stores};
ghost use Rattle.run_slots.specs.Shows.{square_stores};
ghost use Rattle.run_step.specs.Bringing.{BringAsks, BringLeaves};

use run_exchange::exchange;

// Rows k and `row` change places; a row that stands at its place already stays.
pub fn bring(
    k: usize,
    row: usize,
    place: usize,
    l_subs: &[usize],
    l_starts: &[usize],
    l_slots: &[usize],
    u_subs: &[usize],
    u_starts: &[usize],
    u_slots: &[usize],
    l: &mut [f64],
    u: &mut [f64],
    d: &mut [f64],
    x: &mut [f64],
)
    requires { BringAsks k row place (plan_stores l_subs.now l_starts.now l_slots.now u_subs.now u_starts.now u_slots.now)
        (square_stores l.old u.old d.old x.old) }
    ensures { (w : BringAsks k row place
        (plan_stores l_subs.now l_starts.now l_slots.now u_subs.now u_starts.now u_slots.now)
        (square_stores l.old u.old d.old x.old))
        → BringLeaves k row place _ _ (square_stores l.new u.new d.new x.new) w }
{
    if row == k {
        return;
    }
    exchange(
        k, place, l_subs, l_starts, l_slots, u_subs, u_starts, u_slots, l, u, d, x,
    );
}
