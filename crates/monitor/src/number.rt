//! Numbers as they are written in a line.

ghost use Rattle.std.specs.Prelude.{◌≡◌, ◌≤◌, ◌<◌, ◌^◌, IfSome};
ghost use Rattle.monitor.specs.Numbers.{decimal_digit as decimal_digit_of, hex_digit as hex_digit_of, starts_well as starts_well_of};
ghost use Rattle.monitor.specs.Numbers.{decimal_from, hex_from, number_of, address_of, greatest};

/// The greatest number that a line may have.
const GREATEST: u64 = 1 << 40;

/// The digit that a byte stands for in decimal.
fn decimal_digit(byte: u8) -> Option<u64>
    ensures digit { result ≡ decimal_digit_of byte }
    ensures small { IfSome result (λ d. d < 10) }
{
    match byte {
        b'0'..=b'9' => Some(u64::from(byte - b'0')),
        _ => None,
    }
}

/// The digit that a byte stands for in lower-case hexadecimal.
fn hex_digit(byte: u8) -> Option<u64>
    ensures digit { result ≡ hex_digit_of byte }
    ensures small { IfSome result (λ d. d < 16) }
{
    match byte {
        b'0'..=b'9' => Some(u64::from(byte - b'0')),
        b'a'..=b'f' => Some(u64::from(byte - b'a' + 10)),
        _ => None,
    }
}

/// Whether no leading zero stands before other digits.
fn starts_well(word: &[u8]) -> bool
    ensures { result ≡ starts_well_of word.now }
{
    match word {
        [] => false,
        [_] => true,
        [first, ..] => *first != b'0',
    }
}

/// The number that decimal digits spell, where it isn't above the greatest.
#[tactic(auto, using(crate::proofs::Scans::decimal_rules))]
fn decimal(word: &[u8]) -> Option<u64>
    ensures { result ≡ decimal_from 0 word.now }
{
    let mut value = 0;
    for byte in word {
        match decimal_digit(*byte) {
            Some(digit) if value * 10 + digit <= GREATEST => value = value * 10 + digit,
            _ => return None,
        }
    }
    Some(value)
}

/// The number that hexadecimal digits spell, where it isn't above the greatest.
#[tactic(auto, using(crate::proofs::Scans::hex_rules))]
fn hexadecimal(word: &[u8]) -> Option<u64>
    ensures { result ≡ hex_from 0 word.now }
{
    let mut value = 0;
    for byte in word {
        match hex_digit(*byte) {
            Some(digit) if value * 16 + digit <= GREATEST => value = value * 16 + digit,
            _ => return None,
        }
    }
    Some(value)
}

/// A decimal number.
pub fn number(word: &[u8]) -> Option<u64>
    ensures { result ≡ number_of word.now }
{
    if starts_well(word) {
        decimal(word)
    } else {
        None
    }
}

/// An address of eight digits.
pub fn address(word: &[u8]) -> Option<u32>
    ensures { result ≡ address_of word.now }
{
    if word.len() != 8 {
        return None;
    }
    match hexadecimal(word) {
        Some(at) if at < 1 << 32 => Some(at as u32),
        _ => None,
    }
}
