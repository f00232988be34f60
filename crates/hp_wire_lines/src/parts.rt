//! What the words of a line say.
ghost use Rattle.std.specs.Prelude.{◌≡◌};
ghost use Rattle.hp_model.specs.text.Words.{word_at, sharing_at, intent_at, reserving_at};
ghost use Rattle.hp_wire_lines.specs.Words.{Takes};

use crate::known::is_known;
use crate::words::Words;
use hp_model::lent::Lent;
use hp_model::refusal::Refusal;
use hp_model::step::{Intent, Reserving, Sharing};

// Takes one of these words, and says which it is.
macro_rules! one_of {
    ($words:ident; $($known:literal => $value:expr),*) => {{
        let piece = $words.piece()?;
        $(if is_known(piece, $known) {
            return Ok($value);
        })*
        Err(Refusal::BadLine)
    }};
}

/// Takes a name or options.
#[tactic(auto, unfolding(hp_model::specs::text::Words::word_at))]
pub fn word<'a>(words: &mut Words<'a>) -> Result<Lent<'a>, Refusal>
    ensures { Takes (λ x. x) result words.new (word_at words.old) }
{
    let word = words.word()?;
    Ok(Lent::new(word))
}

/// Takes `shared` or `private`.
#[tactic(auto, unfolding(hp_model::specs::text::Words::sharing_at))]
#[inline(always)]
pub fn sharing(words: &mut Words<'_>) -> Result<Sharing, Refusal>
    ensures { Takes (λ x. x) result words.new (sharing_at words.old) }
{
    one_of!(words; b"shared" => Sharing::Shared, b"private" => Sharing::Private)
}

/// Takes `read` or `write`.
#[tactic(auto, unfolding(hp_model::specs::text::Words::intent_at))]
#[inline(always)]
pub fn intent(words: &mut Words<'_>) -> Result<Intent, Refusal>
    ensures { Takes (λ x. x) result words.new (intent_at words.old) }
{
    one_of!(words; b"read" => Intent::Read, b"write" => Intent::Write)
}

/// Nothing, or `noreserve` as the last word.
#[inline(always)]
pub fn reserving(words: &mut Words<'_>) -> Result<Reserving, Refusal>
    ensures { result ≡ reserving_at words.old }
{
    let Ok(piece) = words.piece() else {
        return Ok(Reserving::Reserve);
    };
    words.end()?;
    if is_known(piece, b"noreserve") {
        Ok(Reserving::NoReserve)
    } else {
        Err(Refusal::BadLine)
    }
}
