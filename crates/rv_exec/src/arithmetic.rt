//! The arithmetic of the instructions, where it isn't one operation of Rust.
ghost use Rattle.std.specs.Prelude.{◌≡◌, ◌<◌, ◌+◌, ◌*◌, ◌^◌, pos};
ghost use Rattle.rv_exec.specs.Arithmetic.{signed, high_half, product_low, product_high, product_high_mixed, product_high_unsigned, quotient, quotient_unsigned, remainder, remainder_unsigned, shift_right_signed, is_less_signed, extend_byte, extend_half, min_signed, max_signed, without_bit_zero};
ghost use Rattle.rv_exec.specs.Laws.{DividesSigned, IsProduct};

/// The high word of a product.
fn high_half(product: i64) -> u32
    ensures { result ≡ high_half product }
{
    (product.cast_unsigned() >> 32) as u32
}

/// What MULH gives: the high word of the product of signed words. MUL gives the low one.
pub fn product_high(a: u32, b: u32) -> u32
    ensures value { result ≡ product_high a b }
    ensures product { IsProduct (signed a) (signed b) (signed result) (product_low a b) }
{
    high_half(i64::from(a.cast_signed()) * i64::from(b.cast_signed()))
}

/// What MULHSU gives: the high word of the product of the signed `a` and the unsigned `b`.
pub fn product_high_mixed(a: u32, b: u32) -> u32
    ensures value { result ≡ product_high_mixed a b }
    ensures product { IsProduct (signed a) (pos b) (signed result) (product_low a b) }
{
    high_half(i64::from(a.cast_signed()) * i64::from(b))
}

/// What MULHU gives: the high word of the product of unsigned words.
#[tactic(auto, using(crate::proofs::Halves::unsigned_halves))]
pub fn product_high_unsigned(a: u32, b: u32) -> u32
    ensures value { result ≡ product_high_unsigned a b }
    ensures product { result * 2 ^ 32 + product_low a b ≡ a * b }
{
    ((u64::from(a) * u64::from(b)) >> 32) as u32
}

/// What DIV gives.
pub fn quotient(a: u32, b: u32) -> u32
    ensures value { result ≡ quotient a b }
    ensures division { DividesSigned (signed a) (signed b)
        (signed result) (signed (remainder a b)) }
{
    if b == 0 {
        u32::MAX
    } else {
        a.cast_signed()
            .wrapping_div(b.cast_signed())
            .cast_unsigned()
    }
}

/// What DIVU gives.
pub fn quotient_unsigned(a: u32, b: u32) -> u32
    ensures { result ≡ quotient_unsigned a b }
{
    if b == 0 { u32::MAX } else { a / b }
}

/// What REM gives.
pub fn remainder(a: u32, b: u32) -> u32
    ensures value { result ≡ remainder a b }
    ensures division { DividesSigned (signed a) (signed b)
        (signed (quotient a b)) (signed result) }
{
    if b == 0 {
        a
    } else {
        a.cast_signed()
            .wrapping_rem(b.cast_signed())
            .cast_unsigned()
    }
}

/// What REMU gives.
pub fn remainder_unsigned(a: u32, b: u32) -> u32
    ensures { result ≡ remainder_unsigned a b }
{
    if b == 0 { a } else { a % b }
}

/// What SRA gives. The low 5 bits of `k` count.
pub fn shift_right_signed(a: u32, k: u32) -> u32
    ensures { result ≡ shift_right_signed a k }
{
    (a.cast_signed() >> (k % 32)).cast_unsigned()
}

/// The order of signed words.
pub fn is_less_signed(a: u32, b: u32) -> bool
    ensures { result ≡ is_less_signed a b }
{
    a.cast_signed() < b.cast_signed()
}

/// The word with the signed value of a byte.
pub fn extend_byte(n: u32) -> u32
    requires { n < 2 ^ 8 }
    ensures { result ≡ extend_byte n }
{
    i32::from((n as u8).cast_signed()).cast_unsigned()
}

/// The word with the signed value of two bytes.
pub fn extend_half(n: u32) -> u32
    requires { n < 2 ^ 16 }
    ensures { result ≡ extend_half n }
{
    i32::from((n as u16).cast_signed()).cast_unsigned()
}

/// The smaller of two signed words.
pub fn min_signed(a: u32, b: u32) -> u32
    ensures { result ≡ min_signed a b }
{
    a.cast_signed().min(b.cast_signed()).cast_unsigned()
}

/// The greater of two signed words.
pub fn max_signed(a: u32, b: u32) -> u32
    ensures { result ≡ max_signed a b }
{
    a.cast_signed().max(b.cast_signed()).cast_unsigned()
}

/// The word with its bit 0 cleared.
pub fn without_bit_zero(n: u32) -> u32
    ensures { result ≡ without_bit_zero n }
{
    n & !1
}
