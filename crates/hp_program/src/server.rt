//! What serves sessions, where the words ask for it.
ghost use Rattle.hp_words.specs.Config.{IsMachineWithin, IsServing, choice_of};
ghost use Rattle.hp_program.specs.Program.{IsServingEnded};

use hp_wire::ends::Sink;
use hp_words::settings::{Machine, Serving};
use std::alloc::Global;

/// A server of sessions.
pub trait Server: Drop {
    /// What it serves by can be used by several threads.
    ghost can_serve: { Self → Type 0 };

    /// Serves so many sessions on a new machine, closes it, prints on `output` what is left of it, and gives the
    /// status that the process ends with. A fault is named on `faults`.
    fn serve<W: Sink, E: Sink>(
        self,
        alloc: Global,
        machine: &Machine,
        serving: Serving,
        output: &mut W,
        faults: &mut E,
    ) -> u8
        requires can { can_serve self }
        requires limits { IsMachineWithin (choice_of machine.now) }
        requires serving { IsServing serving }
        ensures { IsServingEnded (choice_of machine.now) serving (W.contents output.old)
            (W.contents output.new) (E.is_sure faults.old) (E.contents faults.old)
            (E.contents faults.new) result };
}
