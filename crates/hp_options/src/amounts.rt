//! Sizes and percentages.
ghost use Rattle.std.specs.Prelude.{◌≡◌, ◌<◌, ◌≤◌, ◌*◌, ◌/◌};
ghost use Rattle.std.specs.Option.{option_map};
ghost use Rattle.hp_model.specs.files.Options.{amount_of, percent_of, pages_for};
ghost use Rattle.hp_options.specs.Seen.{amount_seen};

use crate::quantities::{cut_last, quantity_of};
use crate::wanted::{Amount, Part};
use hp_text::numbers::number_of;

/// Reads a size in bytes, or a percentage.
pub fn amount_of(text: &[u8]) -> Option<Amount>
    ensures { option_map amount_seen result ≡ amount_of text.now }
{
    let (last, front) = cut_last(text);
    if last == b'%' {
        percent_of(number_of(front)?)
    } else {
        Some(Amount::InBytes(quantity_of(text)?))
    }
}

fn percent_of(percent: u64) -> Option<Amount>
    ensures { option_map amount_seen result ≡ percent_of percent }
{
    if percent <= 100 {
        Some(Amount::Percent(Part { percent }))
    } else {
        None
    }
}

/// The whole pages of an amount, where nr is what was asked for and a page has `page_bytes` bytes.
pub fn pages_for(nr: u64, page_bytes: u64, amount: Amount) -> u64
    requires { 0 < page_bytes }
    ensures { result ≡ pages_for nr page_bytes (amount_seen amount) }
{
    match amount {
        Amount::InBytes(n) => n / page_bytes,
        Amount::Percent(part) => percent_pages(nr, part.percent),
    }
}

// The percentage, rounded down. It is taken of the hundreds and of the rest, so that no product is too large.
fn percent_pages(nr: u64, percent: u64) -> u64
    requires { percent ≤ 100 }
    ensures { result ≡ nr * percent / 100 }
{
    nr / 100 * percent + nr % 100 * percent / 100
}
