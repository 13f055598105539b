// The list that two places tell.
ghost use Rattle.std.specs.Prelude.{◌≡◌, ◌-◌, ◌≤◌, length, take, drop};

use answers::SubscriptPlace;

// The list that lies in a store from one place to before another.
pub fn list_at(subs: &[usize], from: SubscriptPlace, to: SubscriptPlace) -> &[usize]
    requires { (from.0 ≤ to.0) × (to.0 ≤ length subs.now) }
    ensures { result.now ≡ take (to.0 - from.0) (drop from.0 subs.now) }
{
    &subs[from.0..to.0]
}
