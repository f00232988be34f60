//! Numbers with a suffix that multiplies.
ghost use Rattle.std.specs.Prelude.{◌≡◌};
ghost use Rattle.hp_model.specs.files.Options.{quantity_of, scaled, scale_of, last_of, without_last};

use hp_text::numbers::number_of;

/// Reads digits, with a suffix that multiplies.
pub fn quantity_of(text: &[u8]) -> Option<u64>
    ensures { result ≡ quantity_of text.now }
{
    let (last, front) = cut_last(text);
    if last.is_ascii_digit() {
        return number_of(text);
    }
    let scale = scale_of(last);
    if scale == 1 {
        return None;
    }
    scaled(scale, number_of(front)?)
}

/// The last byte, or 0 where there is none, and those before it.
pub fn cut_last(text: &[u8]) -> (u8, &[u8])
    ensures last { result.0 ≡ last_of text.now }
    ensures front { result.1.now ≡ without_last text.now }
{
    match text {
        [] => (0, text),
        [front @ .., last] => (*last, front),
    }
}

// What a suffix multiplies by, and 1 for any other byte.
fn scale_of(suffix: u8) -> u64
    ensures { result ≡ scale_of suffix }
{
    match suffix {
        b'G' | b'g' => 1 << 30,
        b'M' | b'm' => 1 << 20,
        b'K' | b'k' => 1 << 10,
        _ => 1,
    }
}

// The product, where it is below 2^64.
fn scaled(scale: u64, n: u64) -> Option<u64>
    ensures { result ≡ scaled scale n }
{
    n.checked_mul(scale)
}
