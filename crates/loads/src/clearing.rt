// The four stores are cleared: before anything is judged, and where a load passes them.
ghost use Rattle.std.specs.Prelude.{◌≡◌};
ghost use Rattle.foundation.specs.LoadCall.{load_stores, load_sizes_of, zero_stores};

use store_clear::clear;

pub fn clear_stores(
    starts: &mut [usize],
    columns: &mut [usize],
    values: &mut [f64],
    right: &mut [f64],
)
    ensures { load_stores starts.new columns.new values.new right.new
        ≡ zero_stores (load_sizes_of (load_stores starts.old columns.old values.old right.old)) }
{
    clear(starts);
    clear(columns);
    values.fill(0.0);
    right.fill(0.0);
}
