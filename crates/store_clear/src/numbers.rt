// A store of numbers is cleared.
ghost use Rattle.store_clear.specs.Clearing.{Zeros};

// Every place of a store becomes 0.
pub fn clear(store: &mut [usize])
    ensures { Zeros store.old store.new }
{
    store.fill(0);
}
