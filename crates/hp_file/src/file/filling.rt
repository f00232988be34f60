//! Indices of a file that get entries and pages.
ghost use Rattle.std.specs.Prelude.{◌≡◌, ◌+◌, ◌*◌, ◌/◌, ◌<◌, ◌≤◌, ◌^◌, [], false, OnErr, OnOk};
ghost use Rattle.std.specs.List.{count_by};
ghost use Rattle.hp_model.specs.Lists.{edit_range, part};
ghost use Rattle.hp_model.specs.files.File.{at_least, entered};
ghost use Rattle.hp_model.specs.files.Fill.{lacks_page};
ghost use Rattle.hp_mount_door.specs.Door.{by_node};
ghost use Rattle.hp_mount_door.specs.Filling.{AreRising};
ghost use Rattle.hp_file.specs.Filling.{IsTaking};
ghost use Rattle.hp_subpool.specs.Subpool.{is_full, used};

use super::File;
use super::adding::{enter_given, prepared};
use hp_inode::Inode;
use hp_model::naming::Naming;
use hp_model::refusal::Refusal;
use hp_mount_door::PoolDoor;
use hp_store::PageBatch;
use hp_subpool::Subpool;
use std::alloc::Global;

/// Where the word of 64 indices of `at` ends, or `end` where that comes first.
pub fn word_end(at: u64, end: u64) -> u64
    requires order { at < end }
    requires small { at < 2 ^ 63 }
    ensures past { at < result }
    ensures to { result ≤ end }
    ensures word { result ≤ 64 * (at / 64) + 64 }
{
    (64 * (at / 64) + 64).min(end)
}

// How many indices from `a` up to `b` have no page. Past the end none has.
fn lacking(inode: &Inode, a: u64, b: u64) -> u64
    requires { a ≤ b }
    ensures { result ≡ count_by lacks_page (part a b (at_least b inode.now)) }
{
    let end = inode.len().min(b);
    let paged = inode.pages_within(a, end);
    b - a - paged
}

// Fills an empty batch through the door.
fn fill<N: Naming, D: PoolDoor<N>>(
    door: &mut D,
    share: &mut Subpool<N>,
    k: u64,
    count: u64,
    batch: &mut PageBatch<N>,
) -> Result<(), Refusal>
    requires ready { D.is_ready door.old }
    requires within { is_full share.old k ≡ false }
    requires few { used share.old + k < 2 ^ 64 }
    requires held { count ≤ share.old.held + k }
    requires batch { batch.old ≡ record { pages = []; room = count } }
    ensures taken { IsTaking D.took D.is_full k count share.old door.old result
        (by_node batch.new.pages) share.new door.new }
    ensures rising { OnOk result (AreRising count batch.new.pages) }
    ensures empty { OnErr result (batch.new.pages ≡ []) }
    ensures left { D.is_left door.new }
{
    match door.fill(share, k, count, batch) {
        Ok(()) => Ok(()),
        Err(refusal) => Err(refusal),
    }
}

impl File {
    /// How many indices from `a` up to `b` have no page. Past the end none has. It takes a step for each word of 64 at most.
    pub fn lacking(&self, a: u64, b: u64) -> u64
        requires { a ≤ b }
        ensures { result ≡ count_by lacks_page (part a b (at_least b self.now.cells)) }
    {
        lacking(&self.inode, a, b)
    }

    /// Enters the indices from `a` up to `b`, which makes the file longer where `b` is past its end, and fills an empty
    /// batch through the door. Refused as OutOfMemory before the door, or as the door refuses; then nothing changes.
    pub fn take_pages<N: Naming, D: PoolDoor<N>>(
        &mut self,
        alloc: Global,
        door: &mut D,
        share: &mut Subpool<N>,
        a: u64,
        b: u64,
        k: u64,
        count: u64,
        batch: &mut PageBatch<N>,
    ) -> Result<(), Refusal>
        requires ready { D.is_ready door.old }
        requires reach { b < 2 ^ 32 }
        requires within { is_full share.old k ≡ false }
        requires few { used share.old + k < 2 ^ 64 }
        requires held { count ≤ share.old.held + k }
        requires batch { batch.old ≡ record { pages = []; room = count } }
        ensures ok { OnOk result (self.new ≡ record self.old {
          cells = edit_range entered a b (at_least b self.old.cells);
        }) }
        ensures err { OnErr result (self.new ≡ self.old) }
        ensures taken { IsTaking D.took D.is_full k count share.old door.old result
            (by_node batch.new.pages) share.new door.new }
        ensures rising { OnOk result (AreRising count batch.new.pages) }
        ensures empty { OnErr result (batch.new.pages ≡ []) }
        ensures left { D.is_left door.new }
    {
        let ready = prepared(&mut self.inode, alloc, a, b)?;
        let filled = fill(door, share, k, count, batch);
        enter_given(&mut self.inode, ready, filled)
    }
}
