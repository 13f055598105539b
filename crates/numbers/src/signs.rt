// The sign and the size of a whole number.
ghost use Rattle.std.specs.Prelude.{cond, ◌≡◌, nat_abs};
ghost use Rattle.foundation.specs.Offset.{negative};

// 1 where a whole number is below zero, else 0.
pub fn minus_of(whole: i64) -> usize
    ensures { result ≡ cond (negative whole) 1 0 }
{
    if whole < 0 {
        return 1;
    }
    0
}

// A whole number without its sign. One is added before the sign is turned, since an i64 has no number for the least one's size.
pub fn size_of(whole: i64) -> usize
    ensures { result ≡ nat_abs whole }
{
    if whole < 0 {
        return (-(whole + 1)) as usize + 1;
    }
    whole as usize
}
