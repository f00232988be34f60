//! The pieces that a text is cut into at a separator.
ghost use Rattle.std.specs.Prelude.{◌≡◌, ◌==◌};
ghost use Rattle.std.specs.List.{position};
ghost use Rattle.hp_text.specs.Pieces.{IsFirstPiece};

use memchr::memchr;

/// What stands before the first separator, and what stands after it. With no separator the whole text is the one piece.
#[inline(always)]
pub fn first_piece(separator: u8, text: &[u8]) -> (&[u8], Option<&[u8]>)
    ensures { IsFirstPiece separator text.now result.0.now result.1 }
{
    cut_at(separator, text, place_of(separator, text))
}

/// As `first_piece`, for pieces that may be long: the separator is looked for in many bytes at a time.
#[inline(always)]
pub fn first_long_piece(separator: u8, text: &[u8]) -> (&[u8], Option<&[u8]>)
    ensures { IsFirstPiece separator text.now result.0.now result.1 }
{
    cut_at(separator, text, far_place_of(separator, text))
}

// A text cut at the place of its first separator, if it has one.
#[inline(always)]
fn cut_at(separator: u8, text: &[u8], place: Option<usize>) -> (&[u8], Option<&[u8]>)
    requires { place ≡ position (λ b. b == separator) text.now }
    ensures { IsFirstPiece separator text.now result.0.now result.1 }
{
    match place {
        None => (text, None),
        Some(at) => (&text[..at], Some(&text[at + 1..])),
    }
}

#[inline(always)]
fn far_place_of(byte: u8, bytes: &[u8]) -> Option<usize>
    ensures { result ≡ position (λ b. b == byte) bytes.now }
{
    memchr(byte, bytes)
}

#[inline(always)]
fn place_of(byte: u8, bytes: &[u8]) -> Option<usize>
    ensures { result ≡ position (λ b. b == byte) bytes.now }
{
    bytes.iter().position(|b| *b == byte)
}
