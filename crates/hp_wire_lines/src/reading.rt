//! The step that a line reads as.
ghost use Rattle.std.specs.Prelude.{◌≡◌, ◌≤◌, length, false};
ghost use Rattle.hp_wire_lines.specs.Accesses.{is_access, IsKind};
ghost use Rattle.hp_model.specs.text.Reading.{step_of_bytes, step_of_command};
ghost use Rattle.hp_model.specs.Profile.{most_line_bytes};

use crate::command::{Command, command_of};
use crate::commands::{
    anon, attach, connect, create, df, exit, fault, fork, load, ls, map, meminfo, mount, nodes, nr,
    overcommit, preallocate, punch, read, remount, stat, store, truncate, umount, unlink, unmap,
};
use crate::known::is_known;
use crate::words::Words;
use hp_model::refusal::Refusal;
use hp_model::step::Step;

/// A load, a store or a fault, by the words after the line's first, or a line of another word.
#[derive(Drop)]
pub enum LineKind<'a> {
    Load(Words<'a>),
    Store(Words<'a>),
    Fault(Words<'a>),
    Other { word: &'a [u8], words: Words<'a> },
}

/// What a line's first word asks for. The words of a load, a store or a fault can be read with no step made of
/// them.
#[tactic(auto, unfolding(hp_model::specs::text::Reading::step_of_bytes, hp_model::specs::text::Reading::step_of_command))]
#[inline(always)]
pub fn kind_of_line<'a>(line: &'a [u8]) -> Result<LineKind<'a>, Refusal>
    requires { length line.now ≤ most_line_bytes }
    ensures { IsKind result line.now }
{
    // Most lines are these, and are known by their first bytes.
    if let Some(words) = Words::behind(line, b"load") {
        return Ok(LineKind::Load(words));
    }
    if let Some(words) = Words::behind(line, b"store") {
        return Ok(LineKind::Store(words));
    }
    if let Some(words) = Words::behind(line, b"fault") {
        return Ok(LineKind::Fault(words));
    }
    let mut words = Words::new(line);
    let word = words.short_piece()?;
    if is_known(word, b"load") {
        Ok(LineKind::Load(words))
    } else if is_known(word, b"store") {
        Ok(LineKind::Store(words))
    } else if is_known(word, b"fault") {
        Ok(LineKind::Fault(words))
    } else {
        Ok(LineKind::Other { word, words })
    }
}

/// The step that a line reads as, or `BadLine`. The bytes of a store lie in the room, and other bytes in the line.
#[tactic(auto, unfolding(hp_model::specs::text::Reading::step_of_bytes))]
pub fn step_of_line<'a>(line: &'a [u8], room: &'a mut [u8]) -> Result<Step<'a>, Refusal>
    requires line { length line.now ≤ most_line_bytes }
    requires room { length room.old ≡ 512 }
    ensures { result ≡ step_of_bytes line.now }
{
    match kind_of_line(line)? {
        LineKind::Load(mut words) => load(&mut words),
        LineKind::Store(mut words) => store(&mut words, room),
        LineKind::Fault(mut words) => fault(&mut words),
        LineKind::Other { word, mut words } => step_of_word(word, &mut words),
    }
}

/// The step of a line's first word, which is not that of a load, a store or a fault, and the words after it, or `BadLine`.
#[inline(always)]
pub fn step_of_word<'a>(word: &[u8], words: &mut Words<'a>) -> Result<Step<'a>, Refusal>
    requires { is_access word.now ≡ false }
    ensures { result ≡ step_of_command word.now words.old }
{
    // A copy need not stand in memory.
    let words = &mut words.copied();
    match command_of(word) {
        Some(Command::Connect) => connect(words),
        Some(Command::Attach) => attach(words),
        Some(Command::Fork) => fork(words),
        Some(Command::Exit) => exit(words),
        Some(Command::Map) => map(words),
        Some(Command::Anon) => anon(words),
        Some(Command::Unmap) => unmap(words),
        Some(Command::Mount) => mount(words),
        Some(Command::Remount) => remount(words),
        Some(Command::Umount) => umount(words),
        Some(Command::Create) => create(words),
        Some(Command::Unlink) => unlink(words),
        Some(Command::Truncate) => truncate(words),
        Some(Command::Punch) => punch(words),
        Some(Command::Preallocate) => preallocate(words),
        Some(Command::Read) => read(words),
        Some(Command::Ls) => ls(words),
        Some(Command::Stat) => stat(words),
        Some(Command::Df) => df(words),
        Some(Command::Nr) => nr(words),
        Some(Command::Overcommit) => overcommit(words),
        Some(Command::Meminfo) => meminfo(words),
        Some(Command::Nodes) => nodes(words),
        None => Err(Refusal::BadLine),
    }
}
