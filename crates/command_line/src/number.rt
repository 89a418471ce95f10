//! A number on the command line.
ghost use Rattle.std.specs.Prelude.{◌≡◌, ◌<◌, ◌≤◌, ◌^◌, true, IfSome, IfNone};
ghost use Rattle.std.specs.List.{list_all};
ghost use Rattle.std.specs.Char.{is_ascii_digit};
ghost use Rattle.std.specs.Str.Parse.{digits_value};
ghost use Rattle.command_line.specs.Number.{starts_well, is_number, number_in};

fn starts_well(bytes: &[u8]) -> bool
    ensures { result ≡ starts_well bytes.now }
{
    match bytes {
        [] => false,
        [_] => true,
        [first, ..] => *first != b'0',
    }
}

fn are_digits(bytes: &[u8]) -> bool
    ensures { result ≡ list_all is_ascii_digit bytes.now }
{
    bytes.iter().all(|byte| byte.is_ascii_digit())
}

#[tactic(auto, using(crate::proofs::NumberLemmas::numbers))]
fn digits(text: &str) -> Option<u64>
    requires { is_number text.now ≡ true }
    ensures some { IfSome result (λ n. n ≡ digits_value 10 text.now) }
    ensures none { IfNone result (digits_value 10 text.now < 2 ^ 64 → ⊥) }
{
    match text.parse::<u64>() {
        Ok(value) => Some(value),
        Err(_) => None,
    }
}

/// The number from `least` to `most` that the text is.
pub(crate) fn number(text: &str, least: u64, most: u64) -> Option<u64>
    ensures value { result ≡ number_in least most text.now }
    ensures range { IfSome result (λ n. n ≤ most) }
{
    if !(are_digits(text.as_bytes()) && starts_well(text.as_bytes())) {
        return None;
    }
    let value = digits(text)?;
    if least <= value && value <= most {
        Some(value)
    } else {
        None
    }
}
