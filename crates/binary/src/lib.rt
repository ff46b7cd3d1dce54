// Powers of two, and a number cut into its low bits and the rest. All total.
#![tactic(auto)]

ghost use Rattle.std.specs.Prelude.{◌≡◌, ◌^◌, ◌%◌, ◌/◌};

// 2^bits, and 0 where that is no number of 64 bits.
pub fn power_of_two(bits: u8) -> usize
    ensures { result ≡ 2 ^ bits % 2 ^ 64 }
{
    1usize.unbounded_shl(bits.into())
}

// The remainder by 2^bits.
pub fn low_bits(v: u32, bits: u8) -> u32
    ensures { result ≡ v % 2 ^ bits }
{
    match 1u32.checked_shl(bits.into()) {
        Some(power) => v % power,
        None => v,
    }
}

// The quotient by 2^bits.
pub fn high_bits(v: u32, bits: u8) -> u32
    ensures { result ≡ v / 2 ^ bits }
{
    v.unbounded_shr(bits.into())
}
