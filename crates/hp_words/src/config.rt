//! The command line.
ghost use Rattle.std.specs.Prelude.{◌≡◌, ◌≤◌, ◌∷◌, [], false, true, map, option_map, codes, IfErr, IfOk, IfSome, IsSomeAnd, MatchOption, Ok};
ghost use Rattle.std.specs.Str.{bytes_eq};
ghost use Rattle.clap.specs.Words.{app_of, first_of, rule_of};
ghost use Rattle.hp_model.specs.text.Words.{number_read};
ghost use Rattle.hp_words.specs.Asked.{AsksFor, IsBadValue, IsLocal, IsNoneWithin, IsNumberOr, IsNumberWithin, IsRefusedFor, IsWrongFrames, IsWrongIn, IsWrongOf, Sets, SetsServing, hugetlbd, machine_options, option, options_in, has_options, comma_pieces, script_app, serve_app, serving_options, with_options};
ghost use Rattle.hp_words.specs.Config.{IsConfigWithin, IsFrames, IsMachineWithin, IsServing, choice_of};

use crate::settings::{Config, Machine, Serving, Wrong};
use clap::error::ErrorKind;
use clap::{Arg, ArgAction, ArgMatches, Command, Error};
use hp_model::profile::{
    LEAST_PAGE_BYTES, MOST_FRAMES, MOST_NODES, MOST_PAGE_BYTES, MOST_PLACES, MOST_SLOTS,
};
use hp_text::pieces::first_piece;
use hp_wire_lines::words::number_of;
use std::alloc::{AllocError, Global};
use std::convert::AsStr;

// How the program is called, as `clap` says it beside a fault. The script comes on standard input.
const USAGE: &str = "hugetlbd [script] [OPTIONS] < FILE";

// And how it serves.
const SERVE_USAGE: &str =
    "hugetlbd serve --port <P> --sessions <N> --workers <W> --trace <ROOM> [OPTIONS]";

// The size of a page where none is asked for, in bytes.
const USUAL_PAGE_BYTES: u64 = 1024;

const MOST_PORT: u64 = 65_535;

// Sessions that are served, and those that are served side by side.
const MOST_SESSIONS: u64 = 65_535;

const MOST_WORKERS: u64 = 64;

// The seconds of a silence.
const MOST_IDLE: u64 = 4_294_967_295;

/// What is printed where the words ask for help.
pub const HELP: &str = "\
Usage: hugetlbd [script] [OPTIONS] < FILE
       hugetlbd serve --port <P> --sessions <N> --workers <W> --trace <ROOM> [OPTIONS]

A HugeTLB service: it answers lines on a new machine, with one reply for each: the
lines on standard input, on standard output; or those of sessions over TCP.

Subcommands:
  script               answer the script on standard input; the word may be left
                       out, and options stand after it
  serve                print 'port <number>', serve sessions at that port of 127.0.0.1,
                       and print what is left of the machine after the last
  help                 print this help

Options:
      --frames <N,..>  frames of each node, in pages: 1 to 65536, of 1 to 4 nodes [default: 4,4]
      --page <BYTES>   size of a page, in bytes: a power of two, 1024 to 2097152 [default: 1024]
      --slots <N>      number of slots for mounts: 1 to 64, slot 0 is mounted [default: 4]
  -h, --help           print this help
  -V, --version        print the version

Options that serve must have:
      --port <P>       port to listen at: 0 to 65535; at 0 the system chooses one
      --sessions <N>   number of sessions to serve: 1 to 65535
      --workers <W>    number of sessions served at a time: 1 to 64
      --trace <ROOM>   entries that each trail has room for, and receipts each session:
                       0 to 16777216; at 0 none are kept, and nothing is audited at the end.
                       Each takes 608 bytes, 512 more for each slot, 464 more for each session

Options that serve may have:
      --idle <SECONDS> end a session that sends nothing, or reads no replies, for so long:
                       0 to 4294967295; at 0 none is ended so [default: 0]
";

/// What is printed where the words ask for the version.
pub const VERSION: &str = "hugetlbd 0.2.0\n";

/// What the words ask for. The first word is the program's name.
///
/// Refused, by the first of these that holds:
/// - `Parse`: `clap` refuses the words, or they ask for help or the version.
/// - `OptionFirst`: an option stands before the subcommand.
/// - `BadValue`: an option has a value that it can't have, the first in the order frames, page, slots, port,
///   sessions, workers, trace, idle.
/// - `Memory`: memory was refused. This one may stand in place of any answer.
pub fn config<'a, S: AsStr>(alloc: Global, words: &'a [S]) -> Result<Config, Wrong>
    ensures limits { IfOk result IsConfigWithin }
    ensures asked { IfOk result (AsksFor (map S.text words.entry.now)) }
    ensures refused { IfErr result (IsRefusedFor (map S.text words.entry.now)) }
{
    let matches = match command(alloc)?.try_get_matches_from(words) {
        Ok(matches) => matches,
        Err(error) => return Err(wrong_of(error)),
    };
    match matches.subcommand() {
        None => Ok(Config::Script(machine_of(alloc, &matches)?)),
        Some(_) if has_option(&matches) => Err(Wrong::OptionFirst),
        Some((name, inner)) if is_serve(name) => {
            Ok(Config::Serve(machine_of(alloc, inner)?, serving_of(inner)?))
        }
        Some((_, inner)) => Ok(Config::Script(machine_of(alloc, inner)?)),
    }
}

fn is_serve(name: &str) -> bool
    ensures { result ≡ bytes_eq name.now (codes "serve") }
{
    name == "serve"
}

fn wrong_of(error: Error) -> Wrong
    ensures { IsWrongOf error result }
{
    if error.kind() == ErrorKind::OutOfMemory {
        Wrong::Memory
    } else {
        Wrong::Parse(error)
    }
}

// The program's options, and its subcommands with theirs. `clap` only finds that the version is asked for.
fn command<'a>(alloc: Global) -> Result<Command<'a>, AllocError>
    ensures { IfOk result (λ c. app_of c ≡ hugetlbd) }
{
    let program = with_machine(
        alloc,
        Command::new(alloc, "hugetlbd")
            .override_usage(USAGE)
            .version(VERSION),
    )?;
    program
        .subcommand(script_command(alloc)?)?
        .subcommand(serve_command(alloc)?)
}

fn script_command<'a>(alloc: Global) -> Result<Command<'a>, AllocError>
    ensures app { IfOk result (λ c. app_of c ≡ script_app) }
    ensures local { IfOk result IsLocal }
{
    with_machine(alloc, Command::new(alloc, "script").override_usage(USAGE))
}

fn serve_command<'a>(alloc: Global) -> Result<Command<'a>, AllocError>
    ensures app { IfOk result (λ c. app_of c ≡ serve_app) }
    ensures local { IfOk result IsLocal }
{
    with_machine(
        alloc,
        Command::new(alloc, "serve").override_usage(SERVE_USAGE),
    )?
    .arg(required(alloc, "port"))?
    .arg(required(alloc, "sessions"))?
    .arg(required(alloc, "workers"))?
    .arg(required(alloc, "trace"))?
    .arg(optional(alloc, "idle"))
}

// The command with the options of the machine.
fn with_machine<'a>(alloc: Global, command: Command<'a>) -> Result<Command<'a>, AllocError>
    ensures app { IfOk result (λ c.
        app_of c ≡ with_options machine_options (app_of command.entry)) }
    ensures local { IfOk result (λ c. IsLocal command.entry → IsLocal c) }
{
    command
        .arg(optional(alloc, "frames"))?
        .arg(optional(alloc, "page"))?
        .arg(optional(alloc, "slots"))
}

fn optional<'a>(alloc: Global, name: &'a str) -> Arg<'a>
    ensures rule { rule_of result ≡ option name.entry.now false }
    ensures local { result.global ≡ false }
{
    Arg::new(alloc, name).long(name).action(ArgAction::Set)
}

fn required<'a>(alloc: Global, name: &'a str) -> Arg<'a>
    ensures rule { rule_of result ≡ option name.entry.now true }
    ensures local { result.global ≡ false }
{
    Arg::new(alloc, name)
        .long(name)
        .action(ArgAction::Set)
        .required(true)
}

// The text that the words give for an option.
fn text_of<'a>(matches: &ArgMatches<'a>, name: &str) -> Option<&'a str>
    ensures { option_map (λ s. s.now) result ≡ first_of name.now (options_in matches.now) }
{
    matches.get_str(name)
}

fn has_option(matches: &ArgMatches<'_>) -> bool
    ensures { result ≡ has_options machine_options (options_in matches.now) }
{
    text_of(matches, "frames").is_some()
        || text_of(matches, "page").is_some()
        || text_of(matches, "slots").is_some()
}

fn machine_of(alloc: Global, matches: &ArgMatches<'_>) -> Result<Machine, Wrong>
    ensures limits { IfOk result (λ m. IsMachineWithin (choice_of m)) }
    ensures sets { IfOk result (λ m. Sets (options_in matches.now) (choice_of m)) }
    ensures wrong { IfErr result (IsWrongIn machine_options (options_in matches.now)) }
{
    let frames = match text_of(matches, "frames") {
        None => two_nodes(alloc)?,
        Some(text) => frames_of(alloc, text.as_bytes())?,
    };
    let page = number_or(
        text_of(matches, "page"),
        "page",
        USUAL_PAGE_BYTES,
        LEAST_PAGE_BYTES,
        MOST_PAGE_BYTES,
    )?;
    if !page.is_power_of_two() {
        return Err(Wrong::BadValue("page"));
    }
    let slots = number_or(text_of(matches, "slots"), "slots", 4, 1, MOST_SLOTS as u64)?;
    Ok(Machine {
        frames,
        page,
        slots,
    })
}

fn serving_of(matches: &ArgMatches<'_>) -> Result<Serving, Wrong>
    ensures limits { IfOk result IsServing }
    ensures sets { IfOk result (SetsServing (options_in matches.now)) }
    ensures wrong { IfErr result (IsWrongIn serving_options (options_in matches.now)) }
{
    let port = number(text_of(matches, "port"), "port", 0, MOST_PORT)?;
    let sessions = number(text_of(matches, "sessions"), "sessions", 1, MOST_SESSIONS)?;
    let workers = number(text_of(matches, "workers"), "workers", 1, MOST_WORKERS)?;
    let room = number(text_of(matches, "trace"), "trace", 0, MOST_PLACES)?;
    let idle = number_or(text_of(matches, "idle"), "idle", 0, 0, MOST_IDLE)?;
    Ok(Serving {
        port: port as u16,
        sessions: sessions as usize,
        workers: workers as usize,
        room: room as usize,
        idle,
    })
}

// Two nodes of 4 frames.
fn two_nodes(alloc: Global) -> Result<Vec<u64>, AllocError>
    ensures frames { IfOk result (λ v. v.items ≡ 4 ∷ 4 ∷ []) }
{
    let mut frames = Vec::new(alloc);
    frames.push(4)?;
    frames.push(4)?;
    Ok(frames)
}

// The frames of 1 to 4 nodes, with one comma between two.
#[tactic(auto, using(crate::proofs::Frames::frame_read, crate::proofs::Frames::last_frame_read))]
fn frames_of(alloc: Global, text: &[u8]) -> Result<Vec<u64>, Wrong>
    ensures reads { IfOk result (λ v. map number_read (comma_pieces text.now) ≡ map Ok v.items) }
    ensures limits { IfOk result (λ v. IsFrames v.items) }
    ensures wrong { IfErr result (IsWrongFrames text.now) }
{
    let mut frames = Vec::new(alloc);
    let mut rest = text;
    for _ in 0..MOST_NODES {
        let (piece, more) = first_piece(b',', rest);
        let Some(n) = number_between(piece, 1, MOST_FRAMES) else {
            return Err(Wrong::BadValue("frames"));
        };
        frames.push(n)?;
        match more {
            Some(more) => rest = more,
            None => return Ok(frames),
        }
    }
    Err(Wrong::BadValue("frames"))
}

// The option's number, which lies between the bounds, or the number where it isn't given.
fn number_or(
    text: Option<&str>,
    name: &'static str,
    none: u64,
    low: u64,
    high: u64,
) -> Result<u64, Wrong>
    requires { (low ≤ none) × (none ≤ high) }
    ensures bounds { IfOk result (λ n. (low ≤ n) × (n ≤ high)) }
    ensures reads { IfOk result (IsNumberOr none text.entry) }
    ensures wrong { IfErr result (λ wrong. IsBadValue name.now wrong
        × IsSomeAnd text.entry (λ text. IsNoneWithin low high text.now)) }
{
    match text {
        Some(text) => number_in(text, name, low, high),
        None => Ok(none),
    }
}

// The number of an option that may not be left out, which lies between the bounds.
fn number(text: Option<&str>, name: &'static str, low: u64, high: u64) -> Result<u64, Wrong>
    ensures bounds { IfOk result (λ n. (low ≤ n) × (n ≤ high)) }
    ensures reads { IfOk result (λ n.
        IsSomeAnd text.entry (λ text. number_read text.now ≡ Ok n)) }
    ensures wrong { IfErr result (λ wrong. IsBadValue name.now wrong
        × IfSome text.entry (λ text. IsNoneWithin low high text.now)) }
{
    let Some(text) = text else {
        return Err(Wrong::BadValue(name));
    };
    number_in(text, name, low, high)
}

// The number that an option's text is, where that lies between the bounds.
fn number_in(text: &str, name: &'static str, low: u64, high: u64) -> Result<u64, Wrong>
    ensures bounds { IfOk result (λ n. (low ≤ n) × (n ≤ high)) }
    ensures reads { IfOk result (λ n. number_read text.now ≡ Ok n) }
    ensures wrong { IfErr result (λ wrong. IsBadValue name.now wrong
        × IsNoneWithin low high text.now) }
{
    match number_between(text.as_bytes(), low, high) {
        Some(n) => Ok(n),
        None => Err(Wrong::BadValue(name)),
    }
}

// The number that the text is, where that lies between the bounds.
fn number_between(text: &[u8], low: u64, high: u64) -> Option<u64>
    ensures { MatchOption result (IsNoneWithin low high text.now)
        (IsNumberWithin low high text.now) }
{
    match number_of(text) {
        Ok(n) if low <= n && n <= high => Some(n),
        _ => None,
    }
}
