//! Parts of a reply that are added to what waits to be written. Nothing here asks for memory.
ghost use Rattle.std.specs.Prelude.{◌≡◌, ◌≤◌, ◌*◌, ◌++◌, codes, decimal, length};
ghost use Rattle.hex.specs.Hex.{encode_lower};
ghost use Rattle.hp_model.specs.text.Writing.{spaced, limit_text};
ghost use Rattle.hp_model.specs.Profile.{most_bytes};
ghost use Rattle.hp_text.specs.Output.{HasRoom, Adds};

use hp_text::output::{push_byte, push_number};

/// Adds numbers with a space before each.
pub fn push_spaced(out: &mut Vec<u8>, numbers: &[u64])
    requires { HasRoom out.old (21 * length numbers.now) }
    ensures adds { Adds out.old out.new (spaced numbers.now) }
    ensures short { length (spaced numbers.now) ≤ 21 * length numbers.now }
{
    for n in numbers {
        push_after_space(out, *n);
    }
}

fn push_after_space(out: &mut Vec<u8>, n: u64)
    requires { HasRoom out.old 21 }
    ensures adds { Adds out.old out.new (codes " " ++ decimal n) }
    ensures short { length (codes " " ++ decimal n) ≤ 21 }
{
    push_byte(out, b' ');
    push_number(out, n);
}

/// Adds a limit, or `-` where none is given.
pub fn push_limit(out: &mut Vec<u8>, limit: Option<u64>)
    requires { HasRoom out.old 20 }
    ensures adds { Adds out.old out.new (limit_text limit) }
    ensures short { length (limit_text limit) ≤ 20 }
{
    match limit {
        None => push_byte(out, b'-'),
        Some(n) => push_number(out, n),
    }
}

/// Adds bytes in hex digits, in lower case.
pub fn push_hex(out: &mut Vec<u8>, bytes: &[u8])
    requires few { length bytes.now ≤ most_bytes }
    requires room { HasRoom out.old 512 }
    ensures adds { Adds out.old out.new (encode_lower bytes.now) }
    ensures short { length (encode_lower bytes.now) ≤ 512 }
{
    let from = out.len();
    out.resize(from + 2 * bytes.len(), 0).unwrap();
    hex::encode_to_slice(bytes, &mut out[from..]).unwrap();
}
