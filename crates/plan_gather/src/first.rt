// A list without the step at hand.
ghost use Rattle.std.specs.Prelude.{◌≡◌};
ghost use Rattle.plan_gather.specs.Gathering.{without};

// A list without its own step k, which can only stand first.
pub fn after_first(k: usize, list: &[usize]) -> &[usize]
    ensures { result.now ≡ without k list.now }
{
    let mut from = 0;
    if 0 < list.len() {
        if list[0] == k {
            from = 1;
        }
    }
    &list[from..]
}
