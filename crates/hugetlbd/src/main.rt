//! The service over a script, with lines on standard input and replies on standard output; or over sessions of TCP.
#![tactic(auto)]

mod over_tcp;

use hp_program::{program, refuse};
use hp_words::settings::Wrong;
use over_tcp::OverTcp;
use std::alloc::{AllocError, Global};
use std::env::{self, Env};
use std::io::{self, ErrorKind, Write};
use std::process::ExitCode;

fn main(rt: HostRuntime) -> ExitCode {
    let mut input = rt.stdin();
    let mut output = rt.stdout();
    let mut faults = rt.stderr();
    let alloc = rt.alloc();
    keep_freed_memory(alloc);
    let words = env::args(&rt).and_then(|words| Ok(words.collect::<Vec<String>>(alloc)?));
    let status = match words {
        Ok(words) => program(
            alloc,
            words.as_slice(),
            OverTcp {
                rt: &rt,
                clock: rt,
                port_to: rt.stdout(),
            },
            &mut input,
            &mut output,
            &mut faults,
        ),
        Err(error) if error.kind() == ErrorKind::OutOfMemory => refuse(
            &Wrong::Memory,
            &mut output,
            &mut faults,
        ),
        Err(_) => {
            let _ = writeln!(faults, "hugetlbd: word not UTF-8");
            2
        }
    };
    ExitCode::from(status)
}

// The bytes of a block that is asked for and given back before any other.
const FIRST_BLOCK: usize = 6 * 1024 * 1024;

// The C library's malloc hands the end of its heap back to the system when more than 128 KB of it are free; but once a block that
// it had mapped by itself was given back, when twice that block's size is. One that nobody writes to has it keep 12 MB, so that
// maps of 60,000 pages that come and go, and the room of a wide preallocation that is refused, find their memory where it was.
#[inline(never)]
fn keep_freed_memory(alloc: Global) {
    let _block: Result<Vec<u8>, AllocError> = Vec::with_capacity(alloc, FIRST_BLOCK);
}
