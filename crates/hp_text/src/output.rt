//! Text that is added to what waits to be written. Nothing here asks for memory.
ghost use Rattle.std.specs.Prelude.{◌≡◌, ◌≤◌, ◌∷◌, [], decimal, length};
ghost use Rattle.hp_model.specs.text.Writing.{in_columns};
ghost use Rattle.hp_text.specs.Output.{HasRoom, Adds};

/// Adds bytes.
#[inline(always)]
pub fn push(out: &mut Vec<u8>, bytes: &[u8])
    requires { HasRoom out.old (length bytes.now) }
    ensures { Adds out.old out.new bytes.now }
{
    out.extend_from_slice(bytes).unwrap();
}

/// Adds a byte.
#[inline(always)]
pub fn push_byte(out: &mut Vec<u8>, byte: u8)
    requires { HasRoom out.old 1 }
    ensures { Adds out.old out.new (byte ∷ []) }
{
    out.push_reserved(byte);
}

/// Adds a number.
pub fn push_number(out: &mut Vec<u8>, n: u64)
    requires { HasRoom out.old 20 }
    ensures adds { Adds out.old out.new (decimal n) }
    ensures short { length (decimal n) ≤ 20 }
{
    if n < 10 {
        return push_byte(out, b'0' + n as u8);
    }
    let mut digits = itoa::Buffer::new();
    push(out, digits.format(n).as_bytes());
}

// The most that eight columns hold.
const MOST_IN_COLUMNS: u64 = 99_999_999;

/// Adds a number right in eight columns, or in as many as it needs.
pub fn push_columns(out: &mut Vec<u8>, n: u64)
    requires { HasRoom out.old 20 }
    ensures adds { Adds out.old out.new (in_columns n) }
    ensures short { length (in_columns n) ≤ 20 }
{
    if n > MOST_IN_COLUMNS {
        return push_number(out, n);
    }
    let mut columns = [b' '; 8];
    itoa::write_digits(n, &mut columns, 8);
    push(out, &columns);
}
