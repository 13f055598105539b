// Whole milliarcseconds by sign and size, and the f64 equal to them.
ghost use Rattle.std.specs.Prelude.{◌≡◌, ◌≤◌, nat_abs};
ghost use Rattle.foundation.specs.Offset as Offset;
ghost use Rattle.foundation.specs.Offset.{largest_offset};
ghost use Rattle.foundation.specs.Numbers.{float_of};

// The whole number of a size, taken with minus where asked.
pub fn signed(minus: bool, size: u64) -> i64
    requires { size ≤ largest_offset }
    ensures { result ≡ Offset.signed minus size }
{
    if minus {
        return -(size as i64);
    }
    size as i64
}

// The f64 of a whole number.
pub fn float_of(whole: i64) -> f64
    requires { nat_abs whole ≤ largest_offset }
    ensures { result ≡ float_of whole }
{
    whole as f64
}
