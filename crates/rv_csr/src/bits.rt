//! Bits and halves of words.
ghost use Rattle.std.specs.Prelude.{◌≡◌, ◌<◌, ◌+◌, ◌*◌, ◌^◌};
ghost use Rattle.rv_csr.specs.Control.{has_bit, bit_if};
ghost use Rattle.rv_csr.specs.Table.{low_half, high_half};

/// Bit `k` of a word.
pub fn has_bit(word: u32, k: u32) -> bool
    requires { k < 32 }
    ensures { result ≡ has_bit word k }
{
    word >> k & 1 == 1
}

/// The word whose one bit `k` is set, or 0.
pub fn bit_if(on: bool, k: u32) -> u32
    requires { k < 32 }
    ensures { result ≡ bit_if on k }
{
    if on { 1 << k } else { 0 }
}

pub fn low_half(n: u64) -> u32
    ensures { result ≡ low_half n }
{
    (n % (1 << 32)) as u32
}

pub fn high_half(n: u64) -> u32
    ensures { result ≡ high_half n }
{
    (n >> 32) as u32
}

/// The number with this low half.
pub fn with_low_half(n: u64, low: u32) -> u64
    ensures { result ≡ high_half n * 2 ^ 32 + low }
{
    u64::from(high_half(n)) * (1 << 32) + u64::from(low)
}

/// The number with this high half.
pub fn with_high_half(n: u64, high: u32) -> u64
    ensures { result ≡ high * 2 ^ 32 + low_half n }
{
    u64::from(high) * (1 << 32) + u64::from(low_half(n))
}
