//! Hex digits, read by a table: no branch depends on a digit that is good.
ghost use Rattle.std.specs.Prelude.{◌≡◌, ◌*◌, length, unwrap_or};
ghost use Rattle.hex.specs.Hex.{hex_digit_value};
ghost use Rattle.hp_wire_lines.specs.Digits.{Decodes};

// The value of each byte as a digit, and 256 for a byte that is none.
const VALUES: &[u16; 256] = &[
    256, 256, 256, 256, 256, 256, 256, 256, 256, 256, 256, 256, 256, 256, 256, 256, 256, 256, 256,
    256, 256, 256, 256, 256, 256, 256, 256, 256, 256, 256, 256, 256, 256, 256, 256, 256, 256, 256,
    256, 256, 256, 256, 256, 256, 256, 256, 256, 256, 0, 1, 2, 3, 4, 5, 6, 7, 8, 9, 256, 256, 256,
    256, 256, 256, 256, 10, 11, 12, 13, 14, 15, 256, 256, 256, 256, 256, 256, 256, 256, 256, 256,
    256, 256, 256, 256, 256, 256, 256, 256, 256, 256, 256, 256, 256, 256, 256, 256, 10, 11, 12, 13,
    14, 15, 256, 256, 256, 256, 256, 256, 256, 256, 256, 256, 256, 256, 256, 256, 256, 256, 256,
    256, 256, 256, 256, 256, 256, 256, 256, 256, 256, 256, 256, 256, 256, 256, 256, 256, 256, 256,
    256, 256, 256, 256, 256, 256, 256, 256, 256, 256, 256, 256, 256, 256, 256, 256, 256, 256, 256,
    256, 256, 256, 256, 256, 256, 256, 256, 256, 256, 256, 256, 256, 256, 256, 256, 256, 256, 256,
    256, 256, 256, 256, 256, 256, 256, 256, 256, 256, 256, 256, 256, 256, 256, 256, 256, 256, 256,
    256, 256, 256, 256, 256, 256, 256, 256, 256, 256, 256, 256, 256, 256, 256, 256, 256, 256, 256,
    256, 256, 256, 256, 256, 256, 256, 256, 256, 256, 256, 256, 256, 256, 256, 256, 256, 256, 256,
    256, 256, 256, 256, 256, 256, 256, 256, 256, 256, 256, 256, 256, 256, 256, 256, 256, 256, 256,
    256, 256, 256,
];

#[inline(always)]
fn value_of(digit: u8) -> u16
    ensures { result ≡ unwrap_or (hex_digit_value digit) 256 }
{
    VALUES[digit as usize]
}

/// Decodes pairs of digits, and says whether all are digits.
pub fn decode(digits: &[u8], out: &mut [u8]) -> bool
    requires { length digits.now ≡ 2 * length out.old }
    ensures { Decodes digits.now out.new result }
{
    'bytes: for i in 0..out.len() {
        // Where one of the two is no digit, what they make is past all bytes.
        let both = value_of(digits[2 * i]) * 16 + value_of(digits[2 * i + 1]);
        if both > 255 {
            return false;
        }
        out[i] = both as u8;
    }
    true
}
