// Powers of two that no zoom can overflow: past the width they are 0, as a shifted number is.
#![tactic(auto)]

ghost use Rattle.std.specs.Prelude.{◌≡◌, ◌^◌, ◌%◌};

// 2^k in 32 bits, 0 where it does not fit.
pub fn pow2(k: u8) -> u32
    ensures { result ≡ 2 ^ k % 2 ^ 32 }
{
    if k < 32 { 1u32 << k } else { 0 }
}

// 2^k in 64 bits, 0 where it does not fit. Two functions and no trait: a trait would have both bodies again, and its own clauses besides.
pub fn wide_pow2(k: u8) -> u64
    ensures { result ≡ 2 ^ k % 2 ^ 64 }
{
    if k < 64 { 1u64 << k } else { 0 }
}
