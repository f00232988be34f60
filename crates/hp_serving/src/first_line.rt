//! The first line of a connection, by which a client is known that speaks another protocol: a web page can have a browser
//! send one to any port.
ghost use Rattle.std.specs.Prelude.{◌≡◌, ◌<◌, ◌∷◌, ◌++◌, ℕ, [], Contains, IfOk, IfSome, List, false, length, None, take, true};
ghost use Rattle.std.specs.Counts.{IsPrefixLen};
ghost use Rattle.std.specs.Io.{ReadsAtMost};
ghost use Rattle.hp_serving.specs.FirstLine.{IsKnown, IsPassed, IsRefused, ends_so, is_foreign, is_foreign_from};

use std::io;
use std::io::{ErrorKind, Read};

/// What the front of a line ends in.
#[derive(Clone, Copy, PartialEq, Eq)]
pub enum Tail {
    /// Nothing of ` HTTP/`.
    Other,
    Space,
    H,
    Ht,
    Htt,
    Http,
    /// ` HTTP/`, or that and a number with a point behind it.
    Slash,
    /// ` HTTP/` and a version.
    Digit,
}

impl Tail {
    fn after(self, byte: u8) -> Tail
        ensures { (rest : List ℕ) → ends_so result rest ≡ ends_so self (byte ∷ rest) }
    {
        match (self, byte) {
            (_, b' ') => Tail::Space,
            (Tail::Space, b'H') => Tail::H,
            (Tail::H, b'T') => Tail::Ht,
            (Tail::Ht, b'T') => Tail::Htt,
            (Tail::Htt, b'P') => Tail::Http,
            (Tail::Http, b'/') => Tail::Slash,
            (Tail::Slash | Tail::Digit, b'0'..=b'9') => Tail::Digit,
            (Tail::Digit, b'.') => Tail::Slash,
            _ => Tail::Other,
        }
    }
}

/// What was read of a connection's first line.
#[derive(Clone, Copy)]
pub enum FirstLine {
    /// It goes on, and ends in this.
    Open(Tail),
    /// A carriage return stands behind that.
    Returned(Tail),
    /// It is whole, and one of the protocol.
    Over,
    /// It is none of the protocol.
    Foreign,
}

impl FirstLine {
    /// Nothing was read.
    pub fn new() -> FirstLine
        ensures { (input : List ℕ) → is_foreign_from result input ≡ is_foreign input }
    {
        FirstLine::Open(Tail::Other)
    }

    // A line that ends so.
    fn ended(tail: Tail) -> FirstLine
        ensures known { IsKnown result }
        ensures same { (input : List ℕ) → is_foreign_from result input ≡ ends_so tail [] }
    {
        if tail == Tail::Digit {
            FirstLine::Foreign
        } else {
            FirstLine::Over
        }
    }

    fn after(self, byte: u8) -> FirstLine
        ensures same { (input : List ℕ) → is_foreign_from result input
            ≡ is_foreign_from self (byte ∷ input) }
        ensures known { IsKnown self → IsKnown result }
        ensures ended { byte ≡ 10 → IsKnown result }
    {
        match self {
            FirstLine::Open(tail) => match byte {
                b'\n' => FirstLine::ended(tail),
                b'\r' => FirstLine::Returned(tail),
                b' '..=b'~' => FirstLine::Open(tail.after(byte)),
                _ => FirstLine::Foreign,
            },
            FirstLine::Returned(tail) => {
                if byte == b'\n' {
                    FirstLine::ended(tail)
                } else {
                    FirstLine::Foreign
                }
            }
            FirstLine::Over => FirstLine::Over,
            FirstLine::Foreign => FirstLine::Foreign,
        }
    }

    /// What is known once these bytes were read too.
    pub fn with(self, bytes: &[u8]) -> FirstLine
        ensures same { (input : List ℕ) → is_foreign_from result input
            ≡ is_foreign_from self (bytes.now ++ input) }
        ensures known { IsKnown self → IsKnown result }
        ensures ended { Contains bytes.now 10 → IsKnown result }
    {
        if let FirstLine::Over | FirstLine::Foreign = self {
            return self;
        }
        let mut line = self;
        for byte in bytes {
            line = line.after(*byte);
        }
        line
    }

    /// Whether it is known to be none of the protocol: by its front, or as a whole where nothing comes.
    pub fn is_foreign(self, at_end: bool) -> bool
        ensures foreign { result ≡ true → is_foreign_from self [] ≡ true }
        ensures known { result ≡ false → IsKnown self → self ≡ FirstLine.Over }
        ensures end { result ≡ false → at_end ≡ true → is_foreign_from self [] ≡ false }
    {
        match self {
            FirstLine::Open(tail) | FirstLine::Returned(tail) => at_end && tail == Tail::Digit,
            FirstLine::Over => false,
            FirstLine::Foreign => true,
        }
    }
}

/// Reads some bytes, as `read` does, and again where a signal interrupted it. `None` says that the first line is none of the
/// protocol: then nothing of this read is for anybody.
pub fn read_on<R: Read>(
    first: &mut FirstLine,
    reader: &mut R,
    buf: &mut [u8],
) -> io::Result<Option<usize>>
    ensures bound { IfOk result (λ got. IfSome got (λ n. IsPrefixLen n buf.new)) }
    ensures passed { IfOk result (λ got. IfSome got (λ n.
        IsPassed first.old first.new (take n buf.new))) }
    ensures end { IfOk result (λ got. IfSome got (λ n. n ≡ 0 → 0 < length buf.new
        → is_foreign_from first.old [] ≡ false)) }
    ensures refused { IfOk result (λ got. got ≡ None → IsRefused first.old buf.new) }
{
    let len = read_again(reader, buf)?;
    let line = first.with(&buf[..len]);
    *first = line;
    let at_end = len == 0 && !buf.is_empty();
    if line.is_foreign(at_end) {
        return Ok(None);
    }
    Ok(Some(len))
}

// Reads as `read` does, and again after a signal.
fn read_again<R: Read>(reader: &mut R, buf: &mut [u8]) -> io::Result<usize>
    ensures { ReadsAtMost result buf.new }
{
    for _ in 0..u64::MAX {
        match reader.read(buf) {
            Err(error) if error.kind() == ErrorKind::Interrupted => {}
            read => return read,
        }
    }
    Err(ErrorKind::Interrupted.into())
}
