//! The text of meminfo.
ghost use Rattle.std.specs.Prelude.{◌≤◌};
ghost use Rattle.hp_model.specs.text.Writing.{meminfo_text};
ghost use Rattle.hp_model.specs.Profile.{most_frames_in_all, most_page_bytes};
ghost use Rattle.hp_text.specs.Output.{HasRoom, Adds};

use crate::output::{push, push_columns};
use hp_model::answer::Counts;

/// Adds the six lines of meminfo: the counts in pages, and the sizes of a page and of all pages in kB, where a page
/// has `page_bytes` bytes. It takes no memory.
pub fn meminfo_text(counts: Counts, page_bytes: u64, out: &mut Vec<u8>)
    requires page { page_bytes ≤ most_page_bytes }
    requires limits { counts.total ≤ most_frames_in_all }
    requires room { HasRoom out.old 256 }
    ensures { Adds out.old out.new (meminfo_text page_bytes counts) }
{
    push(out, b"HugePages_Total:");
    push_columns(out, counts.total);
    push(out, b"\nHugePages_Free: ");
    push_columns(out, counts.free);
    push(out, b"\nHugePages_Rsvd: ");
    push_columns(out, counts.rsvd);
    push(out, b"\nHugePages_Surp: ");
    push_columns(out, counts.surp);
    push(out, b"\nHugepagesize:   ");
    push_columns(out, page_bytes / 1024);
    push(out, b" kB\nHugetlb:        ");
    push_columns(out, counts.total * page_bytes / 1024);
    push(out, b" kB\n");
}
