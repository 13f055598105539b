// A sum over numbers that goes by their order: two lists with the same numbers in another order have another sum.
ghost use Rattle.std.specs.Prelude.{◌≡◌, ◌+◌, ◌*◌, ◌%◌};

// Below 2^32, so that no product passes 64 bits.
const PRIME: u64 = 4_294_967_291;

// The sum with one more number.
pub fn checksum_with(sum: u64, number: u64) -> u64
    ensures { result ≡ (sum * 65599 + number) % 4294967291 }
{
    (sum % PRIME * 65_599 + number % PRIME) % PRIME
}
