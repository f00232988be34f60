//! A map that comes, with what it reserves.
ghost use Rattle.std.specs.Prelude.{◌≡◌, ◌^◌, ◌+◌, ◌<◌, ◌≤◌, false, IfOk, IfErr, None, OnOk, OnErr};
ghost use Rattle.hp_lookup.specs.Asking.{IsAsked, wants};
ghost use Rattle.hp_subpool.specs.Subpool.{is_full, used};
ghost use Rattle.hp_lookup.specs.Numbered.{with_mapping};
ghost use Rattle.hp_model.specs.Lists.{edit_range};
ghost use Rattle.hp_model.specs.files.File.{at_least, entered, new_file};
ghost use Rattle.hp_model.specs.Profile.{most_file_pages};
ghost use Rattle.hp_file.specs.Filling.{reply_of};
ghost use Rattle.hp_file.specs.NewMap.{nameless, with_new_map};

use super::File;
use hp_inode::{Inode, ReadyInode};
use hp_lookup::MapRange;
use hp_model::naming::Naming;
use hp_model::refusal::Refusal;
use hp_mount_door::PoolDoor;
use hp_subpool::Subpool;
use std::alloc::Global;
use std::mem;

// Reserves the pages that a map asks for, through the door.
fn ask<N: Naming, D: PoolDoor<N>>(
    door: &mut D,
    share: &mut Subpool<N>,
    home: usize,
    wanted: u64,
) -> Result<(), Refusal>
    requires ready { D.is_ready door.old }
    requires within { is_full share.old wanted ≡ false }
    requires few { used share.old + wanted < 2 ^ 64 }
    ensures asked { IsAsked D.took D.is_full home wanted share.old door.old result share.new
        door.new }
    ensures left { D.is_left door.new }
{
    match door.get(share, home, wanted) {
        Ok(()) => Ok(()),
        Err(refusal) => Err(refusal),
    }
}

// What was taken out of its place is there again.
fn put_back(place: &mut Inode, taken: Inode)
    ensures { place.new ≡ taken }
{
    *place = taken;
}

// The inode with room to enter the indices from `a` up to `b`, taken out of its place. Where memory is refused, it stays there.
#[inline(always)]
pub(super) fn prepared(
    inode: &mut Inode,
    alloc: Global,
    a: u64,
    b: u64,
) -> Result<ReadyInode, Refusal>
    requires { b < 2 ^ 32 }
    ensures ok { IfOk result (λ ready. ready ≡ record { cells = inode.old; from = a; to = b }) }
    ensures err { IfErr result (λ e. (e ≡ Refusal.OutOfMemory) × (inode.new ≡ inode.old)) }
{
    let taken = mem::replace(inode, Inode::new(alloc));
    match taken.prepare(a, b) {
        Ok(ready) => Ok(ready),
        Err(taken) => {
            put_back(inode, taken);
            Err(Refusal::OutOfMemory)
        }
    }
}

// The inode is in its place again: with its range entered where the door gave what was asked, and else as it was.
#[inline(always)]
pub(super) fn enter_given(
    inode: &mut Inode,
    ready: ReadyInode,
    asked: Result<(), Refusal>,
) -> Result<(), Refusal>
    ensures same { result ≡ asked }
    ensures ok { OnOk result (inode.new
        ≡ edit_range entered ready.from ready.to (at_least ready.to ready.cells)) }
    ensures err { OnErr result (inode.new ≡ ready.cells) }
{
    match asked {
        Ok(()) => {
            put_back(inode, ready.enter());
            Ok(())
        }
        Err(refusal) => {
            put_back(inode, ready.leave());
            Err(refusal)
        }
    }
}

// Enters the indices of an inode from `from` up to `end`, if there are any; it gets longer where `end` is past its end. The
// rest is as `add_range` says.
fn enter_range<N: Naming, D: PoolDoor<N>>(
    inode: &mut Inode,
    alloc: Global,
    door: &mut D,
    share: &mut Subpool<N>,
    home: usize,
    wanted: u64,
    from: u64,
    end: u64,
) -> Result<(), Refusal>
    requires ready { D.is_ready door.old }
    requires within { is_full share.old wanted ≡ false }
    requires few { used share.old + wanted < 2 ^ 64 }
    requires reach { end < 2 ^ 32 }
    ensures ok { OnOk result (inode.new ≡ edit_range entered from end (at_least end inode.old)) }
    ensures err { OnErr result (inode.new ≡ inode.old) }
    ensures asked { IsAsked D.took D.is_full home wanted share.old door.old result share.new
        door.new }
    ensures left { D.is_left door.new }
{
    if from >= end {
        ask(door, share, home, wanted)?;
        inode.lengthen(end);
        return Ok(());
    }
    let ready = prepared(inode, alloc, from, end)?;
    let asked = ask(door, share, home, wanted);
    enter_given(inode, ready, asked)
}

impl File {
    /// Adds a map of a range, which enters what it reserves; the file gets longer where the map reaches past its end. The
    /// pages of the `wanted` indices without an entry are reserved through the door. Refused as OutOfMemory before the
    /// door, or as the door refuses; then nothing changes.
    #[inline(always)]
    pub fn add_range<N: Naming, D: PoolDoor<N>>(
        &mut self,
        alloc: Global,
        door: &mut D,
        share: &mut Subpool<N>,
        home: usize,
        wanted: u64,
        range: &MapRange,
        tag: u64,
        number: u64,
    ) -> Result<(), Refusal>
        requires ready { D.is_ready door.old }
        requires reach { range.now.start + range.now.pages ≤ most_file_pages }
        requires within { is_full share.old wanted ≡ false }
        requires few { used share.old + wanted < 2 ^ 64 }
        ensures ok { OnOk result (self.new ≡ with_new_map range.now number self.old) }
        ensures err { OnErr result (self.new ≡ self.old) }
        ensures asked { IsAsked D.took D.is_full home wanted share.old door.old result share.new
            door.new }
        ensures left { D.is_left door.new }
    {
        let Ok(map) = range.mapping(alloc, tag, number) else {
            return Err(Refusal::OutOfMemory);
        };
        if self.maps.reserve(1).is_err() {
            drop(map);
            return Err(Refusal::OutOfMemory);
        }
        let (from, end) = (range.entered_from(), map.end());
        match enter_range(&mut self.inode, alloc, door, share, home, wanted, from, end) {
            Ok(()) => {
                self.maps.push_reserved(map);
                Ok(())
            }
            Err(refusal) => {
                drop(map);
                Err(refusal)
            }
        }
    }

    /// A file without name that has one map, of a range. Refused as `add_range` is.
    #[inline(always)]
    pub fn anon<N: Naming, D: PoolDoor<N>>(
        alloc: Global,
        door: &mut D,
        share: &mut Subpool<N>,
        home: usize,
        range: &MapRange,
        tag: u64,
        number: u64,
    ) -> Result<Self, Refusal>
        requires ready { D.is_ready door.old }
        requires reach { range.now.start + range.now.pages ≤ most_file_pages }
        requires within { is_full share.old (wants range.now (new_file None)) ≡ false }
        requires few { used share.old + wants range.now (new_file None) < 2 ^ 64 }
        ensures ok { IfOk result (λ file. file ≡ with_new_map range.now number nameless) }
        ensures asked { IsAsked D.took D.is_full home (wants range.now (new_file None))
            share.old door.old (reply_of result) share.new door.new }
        ensures left { D.is_left door.new }
    {
        let mut file = File::new(alloc, None);
        let wanted = range.wanted_alone();
        let added = file.add_range(alloc, door, share, home, wanted, range, tag, number);
        if let Err(refusal) = added {
            drop(file);
            return Err(refusal);
        }
        Ok(file)
    }
}
