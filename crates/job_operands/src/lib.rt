// Numbers in their bytes, the low byte first: each is taken from the front of the bytes that are left.
#![tactic(auto)]

ghost use Rattle.std.specs.Prelude.{◌≡◌, ◌<◌, length, ◌+◌, take, drop, MatchOption};
ghost use Rattle.foundation.specs.Job.{little_endian};
ghost use Rattle.foundation.specs.Numbers.{of_pattern};

// The bits of an f64 without its sign, and the largest of them that are no NaN's: infinity's.
const SIGN: u64 = 0x8000_0000_0000_0000;

const INFINITE: u64 = 0x7ff0_0000_0000_0000;

// The u16 in the first two bytes, and what is left behind them; nothing where the bytes end before.
pub fn split_u16(bytes: &[u8]) -> Option<(usize, &[u8])>
    ensures { MatchOption result (length bytes.now < 2)
        (λ r. (r.0 ≡ little_endian (take 2 bytes.now)) × (r.0 < 65536) × (r.1.now ≡ drop 2 bytes.now) × (length r.1.now + 2 ≡ length bytes.now)) }
{
    let (operand, rest) = bytes.split_first_chunk::<2>()?;
    Some((usize::from(u16::from_le_bytes(*operand)), rest))
}

// The number of a bit pattern, infinities and NaNs too: one that is not finite is 11, which only the run gives, after 1 to 10. `f64::from_bits` must not meet a NaN's pattern.
fn number(bits: u64) -> f64
    ensures { result ≡ of_pattern bits }
{
    if INFINITE < bits % SIGN {
        return f64::NAN;
    }
    f64::from_bits(bits)
}

// The f64 in the first eight bytes, and what is left behind them; nothing where the bytes end before.
pub fn split_f64(bytes: &[u8]) -> Option<(f64, &[u8])>
    ensures { MatchOption result (length bytes.now < 8)
        (λ r. (r.0 ≡ of_pattern (little_endian (take 8 bytes.now))) × (r.1.now ≡ drop 8 bytes.now) × (length r.1.now + 8 ≡ length bytes.now)) }
{
    let (operand, rest) = bytes.split_first_chunk::<8>()?;
    Some((number(u64::from_le_bytes(*operand)), rest))
}
