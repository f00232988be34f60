//! The steps of the commands, by what stands after each command's word.
#![tactic(auto, unfolding(crate::proofs::Readings::readings))]

ghost use Rattle.std.specs.Prelude.{◌≡◌, length};
ghost use Rattle.hp_model.specs.text.Reading.{anon_of, attach_of, connect_of, create_of, df_of, exit_of, fault_of, fork_of, load_of, ls_of, map_of, meminfo_of, mount_of, nodes_of, nr_of, overcommit_of, preallocate_of, punch_of, read_of, remount_of, stat_of, store_of, truncate_of, umount_of, unlink_of, unmap_of};

use crate::parts::{intent, reserving, sharing, word};
use crate::words::Words;
use hp_model::lent::Lent;
use hp_model::refusal::Refusal;
use hp_model::step::Step;

// Takes a part of a command. Most are numbers.
macro_rules! take {
    ($words:ident, name) => { word($words)? };
    ($words:ident, options) => { word($words)? };
    ($words:ident, sharing) => { sharing($words)? };
    ($words:ident, intent) => { intent($words)? };
    ($words:ident, $number:ident) => { $words.number()? };
}

// The step of a command, by its parts. The line ends behind them, or with the last.
macro_rules! step {
    ($words:ident; $step:ident()) => {{
        $words.end()?;
        Ok(Step::$step)
    }};
    ($words:ident; $step:ident($($part:ident),*)) => {{
        $(let $part = take!($words, $part);)*
        $words.end()?;
        Ok(Step::$step { $($part),* })
    }};
    ($words:ident; $step:ident($($part:ident),*), $last:ident = $value:expr) => {{
        $(let $part = take!($words, $part);)*
        let $last = $value;
        Ok(Step::$step { $($part,)* $last })
    }};
}

pub fn connect(words: &mut Words<'_>) -> Result<Step<'static>, Refusal>
    ensures { result ≡ connect_of words.old }
{
    step!(words; Connect(task, home))
}

pub fn attach(words: &mut Words<'_>) -> Result<Step<'static>, Refusal>
    ensures { result ≡ attach_of words.old }
{
    step!(words; Attach(task))
}

pub fn fork(words: &mut Words<'_>) -> Result<Step<'static>, Refusal>
    ensures { result ≡ fork_of words.old }
{
    step!(words; Fork(parent, child))
}

pub fn exit(words: &mut Words<'_>) -> Result<Step<'static>, Refusal>
    ensures { result ≡ exit_of words.old }
{
    step!(words; Exit(task))
}

pub fn map<'a>(words: &mut Words<'a>) -> Result<Step<'a>, Refusal>
    ensures { result ≡ map_of words.old }
{
    step!(words; Map(task, slot, name, from, pages, sharing), reserving = reserving(words)?)
}

pub fn anon(words: &mut Words<'_>) -> Result<Step<'static>, Refusal>
    ensures { result ≡ anon_of words.old }
{
    step!(words; Anon(task, pages, sharing), reserving = reserving(words)?)
}

pub fn unmap(words: &mut Words<'_>) -> Result<Step<'static>, Refusal>
    ensures { result ≡ unmap_of words.old }
{
    step!(words; Unmap(task, slot, map, from, to))
}

pub fn mount<'a>(words: &mut Words<'a>) -> Result<Step<'a>, Refusal>
    ensures { result ≡ mount_of words.old }
{
    step!(words; Mount(slot, options))
}

pub fn remount<'a>(words: &mut Words<'a>) -> Result<Step<'a>, Refusal>
    ensures { result ≡ remount_of words.old }
{
    step!(words; Remount(slot, options))
}

pub fn umount(words: &mut Words<'_>) -> Result<Step<'static>, Refusal>
    ensures { result ≡ umount_of words.old }
{
    step!(words; Umount(slot))
}

pub fn create<'a>(words: &mut Words<'a>) -> Result<Step<'a>, Refusal>
    ensures { result ≡ create_of words.old }
{
    step!(words; Create(slot, name))
}

pub fn unlink<'a>(words: &mut Words<'a>) -> Result<Step<'a>, Refusal>
    ensures { result ≡ unlink_of words.old }
{
    step!(words; Unlink(slot, name))
}

pub fn truncate<'a>(words: &mut Words<'a>) -> Result<Step<'a>, Refusal>
    ensures { result ≡ truncate_of words.old }
{
    step!(words; Truncate(slot, name, pages))
}

pub fn punch<'a>(words: &mut Words<'a>) -> Result<Step<'a>, Refusal>
    ensures { result ≡ punch_of words.old }
{
    step!(words; Punch(slot, name, from, to))
}

pub fn preallocate<'a>(words: &mut Words<'a>) -> Result<Step<'a>, Refusal>
    ensures { result ≡ preallocate_of words.old }
{
    step!(words; Preallocate(slot, name, from, to))
}

pub fn read<'a>(words: &mut Words<'a>) -> Result<Step<'a>, Refusal>
    ensures { result ≡ read_of words.old }
{
    step!(words; Read(slot, name, index, offset, count))
}

pub fn ls(words: &mut Words<'_>) -> Result<Step<'static>, Refusal>
    ensures { result ≡ ls_of words.old }
{
    step!(words; Ls(slot))
}

pub fn stat<'a>(words: &mut Words<'a>) -> Result<Step<'a>, Refusal>
    ensures { result ≡ stat_of words.old }
{
    step!(words; Stat(slot, name))
}

pub fn df(words: &mut Words<'_>) -> Result<Step<'static>, Refusal>
    ensures { result ≡ df_of words.old }
{
    step!(words; Df(slot))
}

pub fn nr(words: &mut Words<'_>) -> Result<Step<'static>, Refusal>
    ensures { result ≡ nr_of words.old }
{
    step!(words; Nr(pages))
}

pub fn overcommit(words: &mut Words<'_>) -> Result<Step<'static>, Refusal>
    ensures { result ≡ overcommit_of words.old }
{
    step!(words; Overcommit(pages))
}

pub fn meminfo(words: &Words<'_>) -> Result<Step<'static>, Refusal>
    ensures { result ≡ meminfo_of words.now }
{
    step!(words; Meminfo())
}

pub fn nodes(words: &Words<'_>) -> Result<Step<'static>, Refusal>
    ensures { result ≡ nodes_of words.now }
{
    step!(words; Nodes())
}

#[tactic(auto, unfolding(hp_model::specs::text::Reading::fault_of))]
pub fn fault(words: &mut Words<'_>) -> Result<Step<'static>, Refusal>
    ensures { result ≡ fault_of words.old }
{
    step!(words; Fault(task, slot, map, index, intent))
}

#[tactic(auto, unfolding(hp_model::specs::text::Reading::load_of))]
pub fn load(words: &mut Words<'_>) -> Result<Step<'static>, Refusal>
    ensures { result ≡ load_of words.old }
{
    step!(words; Load(task, slot, map, index, offset, count))
}

#[tactic(auto, unfolding(hp_model::specs::text::Reading::store_of), using(crate::proofs::LastHex::then_last))]
pub fn store<'a>(words: &mut Words<'_>, room: &'a mut [u8]) -> Result<Step<'a>, Refusal>
    requires { length room.old ≡ 512 }
    ensures { result ≡ store_of words.old }
{
    step!(words; Store(task, slot, map, index, offset), bytes = Lent::new(words.last_hex(room)?))
}
