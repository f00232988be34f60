//! The text of a reply.
ghost use Rattle.std.specs.Prelude.{◌≡◌, ◌≤◌, ℕ, ◌*◌, ◌++◌, ◌∷◌, [], codes, decimal, length, take, Err, IfOk};
ghost use Rattle.std.specs.List.{All};
ghost use Rattle.hex.specs.Hex.{encode_lower};
ghost use Rattle.hp_model.specs.beside.Accesses.{bytes_reply, done_reply};
ghost use Rattle.hp_model.specs.beside.Told.{told_answer, told_reply};
ghost use Rattle.hp_model.specs.text.Writing.{newline, number_line, spaced, heading, meminfo_text, rows_text, names_text, answer_text, line_of, HasSmallAnswer, IsWithinLimits};
ghost use Rattle.hp_model.specs.declared.answer.Answer.TheVariants.{Usage as UsageAnswer};
ghost use Rattle.hp_model.specs.Profile.{most_bytes, most_files, most_frames_in_all, most_name_bytes, most_page_bytes};
ghost use Rattle.hp_wire_lines.specs.Rows.{row_line};
ghost use Rattle.hp_text.specs.Output.{HasRoom, Adds};

use crate::output::{push_hex, push_limit, push_spaced};
use hp_model::answer::{Counts, NodeCount};
use hp_model::bytes::Bytes;
use hp_model::refusal::Refusal;
use hp_model::told::Told;
use hp_text::meminfo::meminfo_text;
use hp_text::output::{push, push_byte, push_number};

/// No reply has more bytes: a heading of at most 26, and 1,024 names of 64 bytes with a newline each.
pub const LONGEST: usize = 66_586;

/// Adds the lines of a reply to what waits to be written, where a page has `page` bytes. It takes no memory.
pub fn line_of_reply(page: u64, reply: &Result<Told<'_>, Refusal>, out: &mut Vec<u8>)
    requires page { page ≤ most_page_bytes }
    requires limits { IsWithinLimits (told_reply reply.now) }
    requires room { HasRoom out.old 66586 }
    ensures { Adds out.old out.new (line_of page (told_reply reply.now)) }
{
    match reply {
        Ok(told) => push_told(page, told, out),
        Err(refusal) => line_of_refusal(*refusal, out),
    }
}

/// Adds the line of what a load answered. It takes no memory.
#[inline(always)]
pub fn line_of_load(loaded: Result<&[u8], Refusal>, out: &mut Vec<u8>)
    requires few { IfOk loaded (λ bytes. length bytes.now ≤ most_bytes) }
    requires room { HasRoom out.old 1024 }
    ensures { (page : ℕ) → Adds out.old out.new (line_of page (bytes_reply loaded.entry)) }
{
    match loaded {
        Ok(bytes) => push_bytes(out, bytes),
        Err(refusal) => line_of_refusal(refusal, out),
    }
}

/// Adds the line of what a store answered. It takes no memory.
#[inline(always)]
pub fn line_of_store(stored: Result<(), Refusal>, out: &mut Vec<u8>)
    requires room { HasRoom out.old 64 }
    ensures { (page : ℕ) → Adds out.old out.new (line_of page (done_reply stored)) }
{
    match stored {
        Ok(()) => push_ok(out),
        Err(refusal) => line_of_refusal(refusal, out),
    }
}

// Adds the line of what was done, byte by byte, with no call.
#[inline(always)]
fn push_ok(out: &mut Vec<u8>)
    requires { HasRoom out.old 3 }
    ensures { Adds out.old out.new (codes "ok\n") }
{
    push_byte(out, b'o');
    push_byte(out, b'k');
    push_byte(out, b'\n');
}

fn push_told(page: u64, told: &Told<'_>, out: &mut Vec<u8>)
    requires page { page ≤ most_page_bytes }
    requires limits { HasSmallAnswer (told_answer told.now) }
    requires room { HasRoom out.old 66586 }
    ensures { Adds out.old out.new (answer_text page (told_answer told.now)) }
{
    match told {
        Told::Done => push_ok(out),
        Told::Home(n) | Told::MapNo(n) | Told::Number(n) => push_numbers(out, &[*n]),
        Told::Bytes(bytes) => push_bytes(out, bytes),
        Told::Stat {
            len,
            pages,
            entries,
            maps,
        } => push_numbers(out, &[*len, *pages, *entries, *maps]),
        Told::Usage {
            max,
            min,
            used,
            inodes,
            files,
        } => push_usage(out, *max, *min, *used, *inodes, *files),
        Told::Names(names) => push_names(out, names.as_slice()),
        Told::Numbers(counts) => push_counts(page, *counts, out),
        Told::PerNode { nodes, rows } => push_nodes(out, *nodes, *rows),
    }
}

fn push_numbers(out: &mut Vec<u8>, numbers: &[u64])
    requires few { length numbers.now ≤ 4 }
    requires room { HasRoom out.old 512 }
    ensures { Adds out.old out.new (number_line numbers.now) }
{
    push(out, b"ok");
    push_spaced(out, numbers);
    push_byte(out, b'\n');
}

fn push_bytes(out: &mut Vec<u8>, bytes: &[u8])
    requires few { length bytes.now ≤ most_bytes }
    requires room { HasRoom out.old 1024 }
    ensures { Adds out.old out.new (codes "ok " ++ encode_lower bytes.now ++ newline) }
{
    push(out, b"ok ");
    push_hex(out, bytes);
    push_byte(out, b'\n');
}

fn push_usage(
    out: &mut Vec<u8>,
    max: Option<u64>,
    min: u64,
    used: u64,
    inodes: Option<u64>,
    files: u64,
)
    requires { HasRoom out.old 512 }
    ensures { Adds out.old out.new (answer_text 0 (UsageAnswer max min used inodes files)) }
{
    push(out, b"ok ");
    push_limit(out, max);
    push_spaced(out, &[min, used]);
    push_byte(out, b' ');
    push_limit(out, inodes);
    push_spaced(out, &[files]);
    push_byte(out, b'\n');
}

fn push_names(out: &mut Vec<u8>, names: &[Bytes])
    requires limits { (length names.now ≤ most_files)
        × All (λ name. length name ≤ most_name_bytes) names.now }
    requires room { HasRoom out.old 66586 }
    ensures { Adds out.old out.new (heading (length names.now) ++ names_text names.now) }
{
    push_heading(out, names.len() as u64);
    push_name_lines(out, names);
}

fn push_name_lines(out: &mut Vec<u8>, names: &[Bytes])
    requires limits { All (λ name. length name ≤ most_name_bytes) names.now }
    requires room { HasRoom out.old (65 * length names.now) }
    ensures { Adds out.old out.new (names_text names.now) }
{
    for name in names {
        push(out, name.as_slice());
        push_byte(out, b'\n');
    }
}

fn push_heading(out: &mut Vec<u8>, lines: u64)
    requires room { HasRoom out.old 26 }
    ensures adds { Adds out.old out.new (heading lines) }
    ensures short { length (heading lines) ≤ 26 }
{
    push(out, b"text ");
    push_number(out, lines);
    push_byte(out, b'\n');
}

// The rows of the first so many nodes. They are copied, so that no other reply has to stand in memory.
#[inline(never)]
fn push_nodes(out: &mut Vec<u8>, nodes: u64, rows: [NodeCount; 4])
    requires few { nodes ≤ 4 }
    requires room { HasRoom out.old 512 }
    ensures { Adds out.old out.new (heading nodes ++ rows_text 0 (take nodes rows)) }
{
    push_heading(out, nodes);
    push_rows(out, &rows[..nodes as usize]);
}

fn push_rows(out: &mut Vec<u8>, rows: &[NodeCount])
    requires few { length rows.now ≤ 4 }
    requires room { HasRoom out.old (84 * length rows.now) }
    ensures { Adds out.old out.new (rows_text 0 rows.now) }
{
    let mut node = 0u64;
    for row in rows {
        push_row(out, node, *row);
        node += 1;
    }
}

fn push_row(out: &mut Vec<u8>, node: u64, row: NodeCount)
    requires { HasRoom out.old 84 }
    ensures adds { Adds out.old out.new (row_line node row) }
    ensures short { length (row_line node row) ≤ 84 }
{
    push_number(out, node);
    push_spaced(
        out,
        &[
            u64::from(row.total),
            u64::from(row.free),
            u64::from(row.surp),
        ],
    );
    push_byte(out, b'\n');
}

fn push_counts(page: u64, counts: Counts, out: &mut Vec<u8>)
    requires page { page ≤ most_page_bytes }
    requires limits { counts.total ≤ most_frames_in_all }
    requires room { HasRoom out.old 512 }
    ensures { Adds out.old out.new (heading 6 ++ meminfo_text page counts) }
{
    push_heading(out, 6);
    meminfo_text(counts, page, out);
}

/// Adds the line of a refusal. It takes no memory.
#[inline(always)]
pub fn line_of_refusal(refusal: Refusal, out: &mut Vec<u8>)
    requires { HasRoom out.old 64 }
    ensures { Adds out.old out.new (line_of 0 (Err refusal)) }
{
    push(out, refusal_line(refusal));
}

fn refusal_line(refusal: Refusal) -> &'static [u8]
    ensures line { result.now ≡ line_of 0 (Err refusal) }
    ensures short { length result.now ≤ 64 }
{
    match refusal {
        Refusal::OutOfMemory => b"error 1 OutOfMemory\n",
        Refusal::NoPages => b"error 2 NoPages\n",
        Refusal::MountFull => b"error 3 MountFull\n",
        Refusal::BeyondEnd => b"error 4 BeyondEnd\n",
        Refusal::TakenByOwner => b"error 5 TakenByOwner\n",
        Refusal::NoSuchTask => b"error 6 NoSuchTask\n",
        Refusal::TaskExists => b"error 7 TaskExists\n",
        Refusal::NoSuchSlot => b"error 8 NoSuchSlot\n",
        Refusal::SlotTaken => b"error 9 SlotTaken\n",
        Refusal::MinOverSize => b"error 10 MinOverSize\n",
        Refusal::BadOption => b"error 11 BadOption\n",
        Refusal::NoSuchFile => b"error 12 NoSuchFile\n",
        Refusal::FileExists => b"error 13 FileExists\n",
        Refusal::NoInodes => b"error 14 NoInodes\n",
        Refusal::BadName => b"error 15 BadName\n",
        Refusal::NoSuchMap => b"error 16 NoSuchMap\n",
        Refusal::OutOfRange => b"error 17 OutOfRange\n",
        Refusal::CrossesPage => b"error 18 CrossesPage\n",
        Refusal::Busy => b"error 19 Busy\n",
        Refusal::TooMany => b"error 20 TooMany\n",
        Refusal::BadLine => b"error 21 BadLine\n",
        Refusal::LineTooLong => b"error 22 LineTooLong\n",
        Refusal::TraceFull => b"error 23 TraceFull\n",
        Refusal::TrailsDiffer => b"error 24 TrailsDiffer\n",
        Refusal::NoSuchNode => b"error 25 NoSuchNode\n",
    }
}
