// The whole milliarcsecond that an f64 goes to.
#![tactic(auto)]

ghost use Rattle.std.specs.Prelude.{◌≡◌, ◌≤◌};
ghost use Rattle.foundation.specs.Offset.{largest_offset};
ghost use Rattle.foundation.specs.OffsetRounding.{rounded_to};
ghost use Rattle.offset_round.specs.Sizes.{nearest_size, Small, rounding_of, Proper};

// What an f64 goes to.
#[derive(Clone, Copy)]
pub enum Rounding {
    // A whole number: below zero or not, and its size; zero is not below zero.
    To(bool, u64),
    // 29: not finite, or beyond the largest.
    Beyond,
}

// Half a milliarcsecond beyond the largest offset.
const LIMIT: f64 = 1295999999.5;

// The nearest whole number to a magnitude, the even one at a half. The half behind the whole part is an f64, so that both tests are exact.
fn nearest(magnitude: f64) -> u64
    requires { Small magnitude }
    ensures { (result ≡ nearest_size magnitude) × (result ≤ largest_offset) }
{
    let whole = std::num::truncating_f64_to_u64(magnitude);
    let half = (2 * whole + 1) as f64 * 0.5;
    if magnitude < half {
        return whole;
    }
    if half < magnitude {
        return whole + 1;
    }
    whole + whole % 2
}

// The whole number that an f64 goes to. From the limit on it would be beyond the largest, which is odd; a NaN is below nothing.
pub fn rounded(value: f64) -> Rounding
    ensures { (rounding_of result ≡ rounded_to value) × Proper result }
{
    if value < 0.0 {
        let magnitude = -value;
        if magnitude < LIMIT {
            let size = nearest(magnitude);
            return Rounding::To(0 < size, size);
        }
        return Rounding::Beyond;
    }
    if value < LIMIT {
        return Rounding::To(false, nearest(value));
    }
    Rounding::Beyond
}
