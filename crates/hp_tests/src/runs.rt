//! Runs on a small service.
use crate::clients::{Client, Counter};
use crate::ends::{Reader, Writer};
use crate::same::same;
use crate::sample::Sample;
use hp_wire::fault::RunFault;
use hp_wire::running::run_lines;
use std::alloc::Global;
use std::cell::Cell;
use std::process::Abort;
use std::test::Fail;

const SCRIPT: &[u8] =
    b"nr 4\nconnect 1 0\ncreate 0 a\nmap 1 0 a 0 3 shared\nstore 1 0 1 0 0 ff\nload 1 0 1 0 0 2\nmeminfo\nnodes\ndf 2\nstat 0 a\numount 9\n";

const REPLIES: &[u8] =
    b"ok 4\nok\nok\nok 1\nok\nok ff00\ntext 6\nHugePages_Total:       4\nHugePages_Free:        4\nHugePages_Rsvd:        0\nHugePages_Surp:        0\nHugepagesize:          1 kB\nHugetlb:               4 kB\ntext 2\n0 2 2 0\n1 2 2 0\nok 3 2 3 - 1\nok 3 1 1 2\nerror 8 NoSuchSlot\n";

// How many lines end in a text.
fn lines_in(text: &[u8]) -> u64 {
    let mut lines = 0u64;
    for byte in text {
        if *byte == b'\n' {
            lines = lines.saturating_add(1);
        }
    }
    lines
}

// The run ended so, and wrote a front of the replies.
fn ended<R: Abort>(rt: &R, got: Result<u64, RunFault>, fault: RunFault, text: &[u8], at: u64) {
    same!(rt; got, Err(fault), "at {at}");
    same!(rt; REPLIES.starts_with(text), true, "at {at}");
}

// A reader fails after so many reads.
fn fails_to_read<R: Abort>(rt: &R, alloc: Global, reads: u64) {
    let mut reader = Reader::new(SCRIPT, 7, reads);
    let mut text = Vec::new(alloc);
    let mut sample = Sample::new();
    let result = run_lines(alloc, &mut reader, &mut text, &mut sample);
    ended(rt, result, RunFault::Read, &text, reads);
    let read = SCRIPT.len() - reader.rest.len().min(SCRIPT.len());
    let lines = lines_in(&SCRIPT[..read]);
    same!(rt; sample.by.calls, lines, "at {reads}");
    same!(rt; lines == 0 || text.ends_with(b"\n"), true, "at {reads}");
}

// A writer that takes five bytes at a time fails after so many writes.
fn fails_to_write<R: Abort>(rt: &R, alloc: Global, writes: u64) {
    let mut rest = SCRIPT;
    let mut writer = Writer::new(alloc, 5, writes);
    let mut sample = Sample::new();
    let result = run_lines(alloc, &mut rest, &mut writer, &mut sample);
    ended(rt, result, RunFault::Write, &writer.text, writes);
    same!(rt; writer.text.len() as u64, writes.saturating_mul(5));
}

#[test]
fn answers_what_ended_before_a_read_fails(rt: HostRuntime) {
    for reads in 0..14 {
        fails_to_read(&rt, rt.alloc(), reads);
    }
}

#[test]
fn writes_a_front_before_a_write_fails(rt: HostRuntime) {
    for writes in 0..40 {
        fails_to_write(&rt, rt.alloc(), writes);
    }
}

// A client that waits for its replies before it sends more would hang else.
#[test]
fn all_replies_are_written_before_the_next_read(rt: HostRuntime) -> Result<(), Fail> {
    let written = Cell::new(0);
    let mut client = Client {
        pieces: &[
            (b"nr 4\nconn", 5),
            (b"ect 1 0\n", 8),
            (b"nr 1\nnr 2\nnr 3\n\n", 40),
            (b"nr", 40),
        ],
        sent: 0,
        wanted: 0,
        written: &written,
        hangs: false,
    };
    let mut replies = Counter { written: &written };
    let mut sample = Sample::new();
    let count = run_lines(rt.alloc(), &mut client, &mut replies, &mut sample)?;
    same!(rt; count, 7);
    assert!(rt; !client.hangs);
    same!(rt; written.get(), 57);
    Ok(())
}
