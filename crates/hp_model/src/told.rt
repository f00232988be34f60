//! What a step or an event answers, where its bytes stay where they are.
ghost use Rattle.std.specs.Prelude.{◌≡◌, ◌≤◌, length, false};
ghost use Rattle.hp_model.specs.declared.told.Told.TheVariants.{Bytes};
ghost use Rattle.hp_model.specs.Profile.{most_bytes};
ghost use Rattle.hp_model.specs.beside.Accesses.{bytes_reply, done_reply};
ghost use Rattle.hp_model.specs.beside.Copying.{has_names};
ghost use Rattle.hp_model.specs.beside.Told.{map_reply, told_answer, told_reply};
ghost use Rattle.hp_model.specs.text.Writing.{HasSmallAnswer, IsWithinLimits};

use crate::answer::{Answer, Counts, NodeCount, Reply};
use crate::names::Names;
use crate::profile::MOST_BYTES;
use crate::refusal::Refusal;

/// An `Answer` of less than half the size: bytes lie in the caller's room.
#[derive(Drop)]
pub enum Told<'a> {
    /// Nothing but that it is done.
    Done,
    /// A node.
    Home(u64),
    /// A new map's number.
    MapNo(u64),
    /// A number of pages.
    Number(u64),
    /// Bytes, at most `MOST_BYTES`.
    Bytes(&'a [u8]),
    /// A file's length, pages present, indices entered, and maps by all tasks.
    Stat {
        len: u64,
        pages: u64,
        entries: u64,
        maps: u64,
    },
    /// A mount's limit, minimum and usage in pages, its limit of files, and its files.
    Usage {
        max: Option<u64>,
        min: u64,
        used: u64,
        inodes: Option<u64>,
        files: u64,
    },
    /// The names of files.
    Names(Names),
    /// The pool's numbers.
    Numbers(Counts),
    /// How many nodes there are, and a row for each; the other rows are zero.
    PerNode {
        nodes: u64,
        rows: [NodeCount; 4],
    },
}

impl<'a> Told<'a> {
    /// The reply that something is done, or its refusal.
    #[inline(always)]
    pub fn done(ended: Result<(), Refusal>) -> Result<Told<'a>, Refusal>
        ensures { told_reply result ≡ done_reply ended }
    {
        match ended {
            Ok(()) => Ok(Told::Done),
            Err(refusal) => Err(refusal),
        }
    }

    /// The reply with a new map's number, or its refusal.
    #[inline(always)]
    pub fn map_no(made: Result<u64, Refusal>) -> Result<Told<'a>, Refusal>
        ensures { told_reply result ≡ map_reply made }
    {
        match made {
            Ok(number) => Ok(Told::MapNo(number)),
            Err(refusal) => Err(refusal),
        }
    }

    /// The reply with bytes, or its refusal.
    #[inline(always)]
    pub fn bytes(loaded: Result<&'a [u8], Refusal>) -> Result<Told<'a>, Refusal>
        ensures { told_reply result ≡ bytes_reply loaded.entry }
    {
        match loaded {
            Ok(bytes) => Ok(Told::Bytes(bytes)),
            Err(refusal) => Err(refusal),
        }
    }

    /// The same with a copy of its bytes.
    pub fn into_answer(self) -> Answer
        requires { HasSmallAnswer (told_answer self) }
        ensures { result ≡ told_answer self.entry }
    {
        match self {
            Told::Names(names) => Answer::Names(names),
            told => told.copied(),
        }
    }

    /// A copy of an answer that is no list of names.
    pub fn copied(&self) -> Answer
        requires small { HasSmallAnswer (told_answer self.now) }
        requires plain { has_names (told_answer self.now) ≡ false }
        ensures { result ≡ told_answer self.now }
    {
        match self {
            Told::Done => Answer::Done,
            Told::Home(home) => Answer::Home(*home),
            Told::MapNo(number) => Answer::MapNo(*number),
            Told::Number(n) => Answer::Number(*n),
            Told::Bytes(bytes) => copied_bytes(bytes),
            Told::Stat {
                len,
                pages,
                entries,
                maps,
            } => Answer::Stat {
                len: *len,
                pages: *pages,
                entries: *entries,
                maps: *maps,
            },
            Told::Usage {
                max,
                min,
                used,
                inodes,
                files,
            } => Answer::Usage {
                max: *max,
                min: *min,
                used: *used,
                inodes: *inodes,
                files: *files,
            },
            Told::Names(_names) => unreachable!(),
            Told::Numbers(counts) => Answer::Numbers(*counts),
            Told::PerNode { nodes, rows } => Answer::PerNode {
                nodes: *nodes,
                rows: *rows,
            },
        }
    }
}

/// The reply with a copy of its bytes.
pub fn into_reply(told: Result<Told<'_>, Refusal>) -> Reply
    requires { IsWithinLimits (told_reply told) }
    ensures { result ≡ told_reply told.entry }
{
    match told {
        Ok(told) => Ok(told.into_answer()),
        Err(refusal) => Err(refusal),
    }
}

// The answer with a copy of these bytes.
fn copied_bytes(bytes: &[u8]) -> Answer
    requires { length bytes.now ≤ most_bytes }
    ensures { result ≡ told_answer (Bytes bytes.entry) }
{
    let mut all = [0u8; MOST_BYTES];
    let (front, _) = all.split_at_mut(bytes.len());
    front.copy_from_slice(bytes);
    Answer::Bytes {
        count: bytes.len() as u64,
        bytes: all,
    }
}
