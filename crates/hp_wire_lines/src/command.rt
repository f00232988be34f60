//! The commands, and their words.
ghost use Rattle.std.specs.Prelude.{◌≡◌, ℕ, List, false};
ghost use Rattle.hp_model.specs.text.Reading.{step_of_command};
ghost use Rattle.hp_wire_lines.specs.Accesses.{is_access};
ghost use Rattle.hp_wire_lines.specs.Commands.{step_as};

use crate::known::is_known;

/// What the first word of a line asks for that is no load, store or fault.
#[derive(Clone, Copy)]
pub enum Command {
    Connect,
    Attach,
    Fork,
    Exit,
    Map,
    Anon,
    Unmap,
    Mount,
    Remount,
    Umount,
    Create,
    Unlink,
    Truncate,
    Punch,
    Preallocate,
    Read,
    Ls,
    Stat,
    Df,
    Nr,
    Overcommit,
    Meminfo,
    Nodes,
}

// The first command whose word this is.
macro_rules! known {
    ($word:ident; $($text:literal => $command:ident,)* else $other:expr) => {
        $(if is_known($word, $text) { Some(Command::$command) } else)* { $other }
    };
}

/// The command of a word that is not that of a load, a store or a fault, if it is one.
#[tactic(auto, unfolding(hp_model::specs::text::Reading::step_of_command, hp_model::specs::text::Reading::slot_command, hp_model::specs::text::Reading::pool_command))]
pub fn command_of(word: &[u8]) -> Option<Command>
    requires { is_access word.now ≡ false }
    ensures { (words : List (List ℕ)) → step_of_command word.now words ≡ step_as result words }
{
    known!(word;
        b"connect" => Connect,
        b"attach" => Attach,
        b"fork" => Fork,
        b"exit" => Exit,
        b"map" => Map,
        b"anon" => Anon,
        b"unmap" => Unmap,
        b"mount" => Mount,
        b"remount" => Remount,
        b"umount" => Umount,
        b"create" => Create,
        b"unlink" => Unlink,
        b"truncate" => Truncate,
        b"punch" => Punch,
        b"preallocate" => Preallocate,
        b"read" => Read,
        b"ls" => Ls,
        b"stat" => Stat,
        b"df" => Df,
        b"nr" => Nr,
        b"overcommit" => Overcommit,
        b"meminfo" => Meminfo,
        b"nodes" => Nodes,
        else None
    )
}
