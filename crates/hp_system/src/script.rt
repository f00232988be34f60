//! Runs over the lines of a script.
ghost use Rattle.std.specs.Prelude.{◌≡◌, ◌≤◌, IfErr, IfSome, OnOk};
ghost use Rattle.hp_model.specs.machine.Promises.{IsPromisedStep};
ghost use Rattle.hp_model.specs.Profile.{most_page_bytes};
ghost use Rattle.hp_model.specs.machine.Ready.{IsReadyMachine};
ghost use Rattle.hp_model.specs.run.Served.{AnswersInput, IsMemoryOrTooLong, ServesInput};

use crate::System;
use hp_model::fault::RunFault;
use hp_model::naming::Naming;
use hp_wire::ends::{Sink, Source};
use hp_wire::running::run_lines;
use std::alloc::Global;

/// Answers the lines of a script on a machine, one reply for each, and says how many lines there were.
///
/// The script is the reader's input up to its end, at most 1,073,741,824 bytes. All replies to the lines that were read
/// are written before the next read, and no memory is asked for but before the first read and by the steps that may be
/// refused it. The faults leave what `run_lines` says: `Memory` everything as it was, `Read` and `TooLong` the
/// lines answered that had ended, `Write` a front of the text of the replies written.
pub fn run_script<N: Naming, R: Source, W: Sink>(
    alloc: Global,
    reader: &mut R,
    writer: &mut W,
    machine: &mut System<N>,
) -> Result<u64, RunFault>
    requires page { machine.old.state.page_size ≤ most_page_bytes }
    requires ready { IsReadyMachine machine.old }
    ensures served { ServesInput IsPromisedStep (λ state. state.page_size) R.remaining W.contents
        machine.old.state machine.new.state reader.old reader.new writer.old writer.new result }
    ensures script { IfSome (R.remaining reader.old) (λ input. OnOk result
        (AnswersInput IsPromisedStep machine.old.state.page_size input machine.old.state
        machine.new.state
        (W.contents writer.old) (W.contents writer.new))) }
    ensures never { R.is_sure reader.old → W.is_sure writer.old
        → IfErr result IsMemoryOrTooLong }
    ensures lent { W.lent writer.new ≡ W.lent writer.old }
    ensures ready { IsReadyMachine machine.new }
{
    run_lines(alloc, reader, writer, machine)
}
