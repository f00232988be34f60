//! Numbers in a text.
ghost use Rattle.std.specs.Prelude.{◌≡◌};
ghost use Rattle.hp_model.specs.files.Options.{number_of};
ghost use Rattle.hp_text.specs.Numbers.{IsWithDigit};

/// Reads 1 to 20 digits with a value below 2^64. Any other text is no number.
#[inline(always)]
pub fn number_of(digits: &[u8]) -> Option<u64>
    ensures { result ≡ number_of digits.now }
{
    if digits.is_empty() || digits.len() > 20 {
        return None;
    }
    let mut value = 0u64;
    for b in digits {
        value = with_digit(value, *b)?;
    }
    Some(value)
}

// The number with one digit more, where it fits.
#[inline(always)]
fn with_digit(value: u64, b: u8) -> Option<u64>
    ensures { IsWithDigit value b result }
{
    if !b.is_ascii_digit() {
        return None;
    }
    value.checked_mul(10)?.checked_add(u64::from(b - b'0'))
}
