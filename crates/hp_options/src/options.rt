//! The text of a mount's options, and the limits that it means.
ghost use Rattle.std.specs.Prelude.{◌≡◌, ◌<◌};
ghost use Rattle.std.specs.Option.{option_map};
ghost use Rattle.hp_model.specs.files.Options.{after_key, option_of, options_of, nothing_wanted, parts, wanted_of, limits_of, checked, limits, pages_for};
ghost use Rattle.hp_options.specs.Seen.{amount_seen, wanted_seen};

use crate::amounts::{amount_of, pages_for};
use crate::quantities::quantity_of;
use crate::wanted::{Amount, Wanted};
use hp_model::limits::Limits;
use hp_model::refusal::Refusal;
use hp_text::pieces::first_piece;

/// The limits that a mount's options mean, in pages of `page_bytes` bytes, where `nr` pages are asked for. It takes
/// no memory.
///
/// # Errors
/// `BadOption` for a text that isn't options, `MinOverSize` where the minimum is above the limit.
pub fn parse_options(text: &[u8], nr: u64, page_bytes: u64) -> Result<Limits, Refusal>
    requires { 0 < page_bytes }
    ensures { result ≡ limits nr page_bytes (wanted_of text.now) }
{
    match wanted_of(text) {
        None => Err(Refusal::BadOption),
        Some(wanted) => checked(limits_of(nr, page_bytes, wanted)),
    }
}

fn wanted_of(text: &[u8]) -> Option<Wanted>
    ensures { option_map wanted_seen result ≡ wanted_of text.now }
{
    let nothing = Wanted {
        size: None,
        min_size: None,
        nr_inodes: None,
    };
    match text {
        [b'-'] => Some(nothing),
        _ => options_of(nothing, text),
    }
}

// What the options between commas set, one after another.
fn options_of(start: Wanted, text: &[u8]) -> Option<Wanted>
    ensures { option_map wanted_seen result ≡ options_of (wanted_seen start) (parts text.now) }
{
    let mut wanted = start;
    let mut left = Some(text);
    while let Some(rest) = left {
        let (part, more) = first_piece(b',', rest);
        wanted = option_of(wanted, part)?;
        left = more;
    }
    Some(wanted)
}

// What one option sets.
fn option_of(wanted: Wanted, text: &[u8]) -> Option<Wanted>
    ensures { option_map wanted_seen result ≡ option_of (wanted_seen wanted) text.now }
{
    if let Some(size) = after_key(b"size=", text) {
        return Some(Wanted {
            size: Some(amount_of(size)?),
            ..wanted
        });
    }
    if let Some(min_size) = after_key(b"min_size=", text) {
        return Some(Wanted {
            min_size: Some(amount_of(min_size)?),
            ..wanted
        });
    }
    let nr_inodes = after_key(b"nr_inodes=", text)?;
    Some(Wanted {
        nr_inodes: Some(quantity_of(nr_inodes)?),
        ..wanted
    })
}

// What stands after the key, where the text begins with it.
fn after_key<'a>(key: &[u8], text: &'a [u8]) -> Option<&'a [u8]>
    ensures { option_map (λ t. t.now) result ≡ after_key key.now text.now }
{
    if text.starts_with(key) {
        Some(&text[key.len()..])
    } else {
        None
    }
}

fn limits_of(nr: u64, page_bytes: u64, wanted: Wanted) -> Limits
    requires { 0 < page_bytes }
    ensures { result ≡ limits_of nr page_bytes (wanted_seen wanted) }
{
    Limits {
        max: pages_of(nr, page_bytes, wanted.size),
        min: pages_of(nr, page_bytes, wanted.min_size).unwrap_or(0),
        inodes: wanted.nr_inodes,
    }
}

fn pages_of(nr: u64, page_bytes: u64, amount: Option<Amount>) -> Option<u64>
    requires { 0 < page_bytes }
    ensures { result ≡ option_map (pages_for nr page_bytes) (option_map amount_seen amount) }
{
    Some(pages_for(nr, page_bytes, amount?))
}

fn checked(limits: Limits) -> Result<Limits, Refusal>
    ensures { result ≡ checked limits }
{
    match limits.max {
        Some(max) if max < limits.min => Err(Refusal::MinOverSize),
        _ => Ok(limits),
    }
}
