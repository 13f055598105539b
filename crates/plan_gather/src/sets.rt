// The sets S, as chains: the one step of a set.
ghost use Rattle.std.specs.Prelude.{◌≡◌, ◌<◌, length, get_or};
ghost use Rattle.plan_gather.specs.Steps.{sole_of};

// The step whose lists step k shares: the one step of its chain, if no row was first met at k; else 0.
pub fn sole_step(row: usize, set: usize, links: &[usize]) -> usize
    requires { set < length links.now }
    ensures { result ≡ sole_of row set (get_or links.now set 0) }
{
    if row != 0 {
        return 0;
    }
    if links[set] != 0 {
        return 0;
    }
    set
}
