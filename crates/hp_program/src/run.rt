//! The program: what the words ask for, the machine, a script on it, and a status.
ghost use Rattle.std.specs.Prelude.{◌≡◌, ◌≢◌, ◌≤◌, ◌⊎◌, ◌++◌, ℕ, Result, false, map, length, option_map, IfErr, IsOk, OnOk};
ghost use Rattle.clap.specs.Takes.{takes};
ghost use Rattle.clap.specs.Values.{kind_of};
ghost use Rattle.clap.specs.Words.{Text};
ghost use Rattle.hp_wire.specs.Sent.{Writes, WritesFront};
ghost use Rattle.hp_model.specs.declared.fault.RunFault.{RunFault as TheFault};
ghost use Rattle.hp_nodes.specs.Ledgers.{AreFrames};
ghost use Rattle.hp_pool.specs.Ledgers.{AreLedgers};
ghost use Rattle.hp_words.specs.Asked.{AsksForScript, AsksToServe, IsRefusedFor, hugetlbd};
ghost use Rattle.hp_words.specs.Config.{MachineChoice, IsServing, IsMachineWithin, chosen, choice_of, usual};
ghost use Rattle.hp_serving.specs.Ended.{Says};
ghost use Rattle.hp_program.specs.Program.{AnswersKnown, AsksForText, IsServingEnded, Refuses, RunsOn, SaysRunEnd, named, status_of_run, text_for};
ghost use Rattle.hp_words.specs.declared.settings.Serving.{Serving as TheServing};
ghost use Rattle.hp_words.specs.declared.settings.Wrong.{Wrong as TheWrong};

use crate::server::Server;
use clap::Error;
use clap::error::ErrorKind;
use hp_model::naming::Naming;
use hp_pool::Blanks;
use hp_system::{System, run_script};
use hp_wire::ends::{Sink, Source, write_whole};
use hp_wire::fault::RunFault;
use hp_words::config::{HELP, VERSION, config};
use hp_words::settings::{Config, Machine, Wrong};
use std::alloc::Global;
use std::convert::AsStr;
use std::io::Write;
use std::marker::Brand;

/// Does what the words ask for, of which the first is the program's name, and gives the status that
/// the process ends with.
///
/// A script on `input` is answered on `output` by the machine of the words: 0, or 1 with the reason
/// on `faults`. Sessions are served by `server`, with nothing read. Help and the version are written to
/// `output`, with 0. A wrong command line is named on `faults`, with 2. Where no script runs, nothing is
/// served and neither text is asked for, `output` is as it was.
pub fn program<'a, S: AsStr, V: Server, R: Source, W: Sink, E: Sink>(
    alloc: Global,
    words: &'a [S],
    server: V,
    input: &mut R,
    output: &mut W,
    faults: &mut E,
) -> u8
    requires server { V.can_serve server }
    ensures ended { let asked = map S.text words.entry.now in
        ((c : MachineChoice) × AsksForScript asked c × IsMachineWithin c
        × (ended : Result ℕ TheFault) × (result ≡ status_of_run ended)
        × RunsOn (chosen c) R.remaining W.contents
        (R.is_sure input.old × W.is_sure output.old)
        input.old input.new output.old output.new ended
        × SaysRunEnd (E.is_sure faults.old) (E.contents faults.old) (E.contents faults.new) ended)
        ⊎ ((c : MachineChoice) × (s : TheServing) × AsksToServe asked c s × IsMachineWithin c
        × IsServing s × (input.new ≡ input.old)
        × IsServingEnded c s (W.contents output.old) (W.contents output.new)
        (E.is_sure faults.old) (E.contents faults.old) (E.contents faults.new) result)
        ⊎ ((wrong : TheWrong) × IsRefusedFor asked wrong × (input.new ≡ input.old)
        × Refuses W.contents W.is_sure output.old output.new
        (E.is_sure faults.old) (E.contents faults.old) (E.contents faults.new) wrong result) }
    ensures right { (c : MachineChoice) → AsksForScript (map S.text words.entry.now) c
        → IsMachineWithin c → result ≢ 2 }
    ensures serves { (c : MachineChoice) → (s : TheServing)
        → AsksToServe (map S.text words.entry.now) c s → IsMachineWithin c → IsServing s
        → result ≢ 2 }
    ensures script { let asked = map S.text words.entry.now in
        result ≡ 0 → ((input.new ≡ input.old) × (takes hugetlbd asked ≡ false)
        × (text : Text) × AsksForText asked text × Writes W.contents output.old output.new text)
        ⊎ ((c : MachineChoice) × AsksForScript asked c
        × AnswersKnown (chosen c) R.remaining W.contents input.old output.old output.new)
        ⊎ ((input.new ≡ input.old) × (c : MachineChoice) × (s : TheServing)
        × AsksToServe asked c s) }
    ensures usual { length words.entry.now ≤ 1 → result ≡ 0
        → AnswersKnown (chosen usual) R.remaining W.contents input.old output.old output.new }
    ensures alone { length words.entry.now ≤ 1
        → ((ended : Result ℕ TheFault) × (result ≡ status_of_run ended)
        × RunsOn (chosen usual) R.remaining W.contents
        (R.is_sure input.old × W.is_sure output.old)
        input.old input.new output.old output.new ended)
        ⊎ ((result ≡ 1) × (input.new ≡ input.old) × (output.new ≡ output.old)) }
{
    match config(alloc, words) {
        Ok(Config::Script(machine)) => {
            let ended = run_on(alloc, &machine, input, output);
            report(ended, faults)
        }
        Ok(Config::Serve(machine, serving)) => server.serve(
            alloc, &machine, serving, output, faults,
        ),
        Err(wrong) => refuse(&wrong, output, faults),
    }
}

// Takes the memory of the machine's pages, and runs the script on it.
fn run_on<R: Source, W: Sink>(
    alloc: Global,
    config: &Machine,
    input: &mut R,
    output: &mut W,
) -> Result<u64, RunFault>
    requires limits { IsMachineWithin (choice_of config.now) }
    ensures run { RunsOn (chosen (choice_of config.now)) R.remaining W.contents
        (R.is_sure input.old × W.is_sure output.old)
        input.old input.new output.old output.new result }
    ensures script { OnOk result (AnswersKnown (chosen (choice_of config.now))
        R.remaining W.contents input.old output.old output.new) }
{
    if config.ask_whole(alloc).is_err() {
        return Err(RunFault::Memory);
    }
    let Ok(blanks) = Blanks::new(alloc, &config.frames, config.page as usize) else {
        return Err(RunFault::Memory);
    };
    run_machine::<Brand, R, W>(alloc, config, blanks, input, output)
}

// Makes the machine, runs the script on it and closes it.
fn run_machine<N: Naming, R: Source, W: Sink>(
    alloc: Global,
    config: &Machine,
    blanks: Blanks,
    input: &mut R,
    output: &mut W,
) -> Result<u64, RunFault>
    requires limits { IsMachineWithin (choice_of config.now) }
    requires bytes { N.page_bytes ≡ config.now.page }
    requires ledgers { AreLedgers N.Naming blanks }
    requires frames { AreFrames N.frames config.now.frames.items }
    ensures run { RunsOn (chosen (choice_of config.now)) R.remaining W.contents
        (R.is_sure input.old × W.is_sure output.old)
        input.old input.new output.old output.new result }
    ensures script { OnOk result (AnswersKnown (chosen (choice_of config.now))
        R.remaining W.contents input.old output.old output.new) }
{
    let frames = config.frames.as_slice();
    let Ok(mut machine) = System::<N>::new(
        alloc,
        frames,
        config.page as usize,
        config.slots,
        blanks,
    ) else {
        return Err(RunFault::Memory);
    };
    let ended = run_script(alloc, input, output, &mut machine);
    machine.close();
    ended
}

/// The status for the way that a run ended. A fault is named on `faults`; where that fails too, the
/// status alone tells.
pub fn report<E: Sink>(ended: Result<u64, RunFault>, faults: &mut E) -> u8
    ensures status { result ≡ status_of_run ended }
    ensures says { SaysRunEnd (E.is_sure faults.old)
        (E.contents faults.old) (E.contents faults.new) ended }
{
    match ended {
        Ok(_) => 0,
        Err(fault) => {
            name(fault.text(), "", faults);
            1
        }
    }
}

/// Says why the words give no configuration, and gives the status. Help and the version go to
/// `output`, and anything else to `faults`; where `faults` fails, the status alone tells.
pub fn refuse<W: Sink, E: Sink>(wrong: &Wrong, output: &mut W, faults: &mut E) -> u8
    ensures { Refuses W.contents W.is_sure output.old output.new
        (E.is_sure faults.old) (E.contents faults.old) (E.contents faults.new) wrong.now result }
{
    match wrong {
        Wrong::Memory => report(Err(RunFault::Memory), faults),
        Wrong::Parse(error) => match text_asked(error) {
            Some(text) => match write_whole(output, text.as_bytes()) {
                Ok(()) => 0,
                Err(fault) => report(Err(fault), faults),
            },
            None => {
                let _ = write!(faults, "{error}");
                2
            }
        },
        Wrong::BadValue(option) => {
            name("bad value for --", option, faults);
            2
        }
        Wrong::OptionFirst => {
            name("option before subcommand", "", faults);
            2
        }
    }
}

// The text of the program's own that the words ask for.
fn text_asked(error: &Error) -> Option<&'static str>
    ensures { option_map (λ s. s.now) result ≡ text_for (kind_of error.now) }
{
    match error.kind() {
        ErrorKind::DisplayHelp => Some(HELP),
        ErrorKind::DisplayVersion => Some(VERSION),
        _ => None,
    }
}

// Names what went wrong on a line of its own, as far as `faults` takes it.
fn name<E: Sink>(what: &str, of: &str, faults: &mut E)
    ensures { Says (E.is_sure faults.old) (E.contents faults.old) (E.contents faults.new)
        (named (what.now ++ of.now)) }
{
    let _ = write_line(what, of, faults);
}

fn write_line<E: Sink>(what: &str, of: &str, faults: &mut E) -> Result<(), RunFault>
    ensures sent { OnOk result (Writes E.contents faults.old faults.new
        (named (what.now ++ of.now))) }
    ensures cut { IfErr result (WritesFront E.contents faults.old faults.new
        (named (what.now ++ of.now))) }
    ensures sure { E.is_sure faults.old → IsOk result }
{
    write_whole(faults, b"hugetlbd: ")?;
    write_whole(faults, what.as_bytes())?;
    write_whole(faults, of.as_bytes())?;
    write_whole(faults, b"\n")
}
