//! Words that are known.
ghost use Rattle.std.specs.Prelude.{◌≡◌, ◌+◌, ◌≤◌, length, take, drop};
ghost use Rattle.std.specs.Int.{from_le_bytes, w32};
ghost use Rattle.std.specs.Str.{bytes_eq};

/// Whether a word is this one. Words that are known are short, so they are compared in line, with no call, and four bytes
/// at a time.
#[inline(always)]
pub fn is_known(word: &[u8], known: &[u8]) -> bool
    ensures { result ≡ bytes_eq word.now known.now }
{
    if word.len() != known.len() {
        return false;
    }
    let mut at = 0;
    'fours: while known.len() - at >= 4 {
        if four_at(word, at) != four_at(known, at) {
            return false;
        }
        at += 4;
    }
    'left: while at < known.len() {
        if word[at] != known[at] {
            return false;
        }
        at += 1;
    }
    true
}

// Four bytes as one number.
#[inline(always)]
fn four_at(bytes: &[u8], at: usize) -> u32
    requires { at + 4 ≤ length bytes.now }
    ensures { result ≡ from_le_bytes w32 (take 4 (drop at bytes.now)) }
{
    u32::from_le_bytes([bytes[at], bytes[at + 1], bytes[at + 2], bytes[at + 3]])
}
