//! A child's maps of all files.
ghost use Rattle.std.specs.Prelude.{◌≡◌, ◌^◌, ◌+◌, ◌-◌, ◌<◌, ◌≤◌, length, ℕ, IfOk, OnOk};
ghost use Rattle.std.specs.List.{filter, sum_by};
ghost use Rattle.hp_lookup.specs.Forking.{AreReady, HasRoom, HaveJoined, in_list, in_lists, joined_at, list_copies, maps_by};
ghost use Rattle.hp_file.specs.ForkLists.{AreFit, spread};
ghost use Rattle.hp_file.specs.HeldPages.{AreHeld, AreShared};
ghost use Rattle.hp_lookup.specs.Leaving.{is_used};
ghost use Rattle.hp_lookup.specs.Numbered.{numbered_at};

use crate::copies_of;
use crate::file_list::FileList;
use crate::held_pages::HeldPages;
use hp_lookup::{FileTag, Hints, MapPlace, Tags};
use hp_mapping::Mapping;
use hp_model::naming::Naming;
use std::alloc::{AllocError, Global};

/// The maps that a child gets of the file at a place.
#[derive(Drop)]
pub struct FileMaps {
    pub file: usize,
    pub list: Vec<Mapping>,
}

// Where the places of a file end that begin at one.
fn run_end(places: &[MapPlace], from: usize) -> usize
    requires { from < length places.now }
    ensures some { from < result }
    ensures within { result ≤ length places.now }
{
    let mut end = from + 1;
    while end < places.len() && places[end].file == places[from].file {
        end += 1;
    }
    end
}

/// The maps that a child gets of each file for those of a parent, which are so many and stand at some places in order. Where the
/// places are others, all files are gone over.
pub fn children(
    files: &FileList,
    places: &[MapPlace],
    alloc: Global,
    tags: &mut Tags,
    parent: u64,
    child: u64,
    count: u64,
) -> Result<Vec<FileMaps>, AllocError>
    requires { count ≡ sum_by (maps_by parent) files.now.files }
    ensures ready { IfOk result (λ lists.
        AreReady parent child files.now.files (spread lists.items)) }
    ensures fit { IfOk result (λ lists. AreFit 0 files.now.files lists.items) }
{
    let mut lists = Vec::new(alloc);
    let mut left = count;
    let mut from = 0;
    let mut next = 0;
    while from < places.len() {
        let file = places[from].file;
        if file < next || file >= files.len() {
            break;
        }
        let end = run_end(places, from);
        let list = files[file].children_at(&places[from..end], alloc, tags, parent, child)?;
        left -= list.len() as u64;
        lists.push(FileMaps { file, list })?;
        next = file + 1;
        from = end;
    }
    if left == 0 {
        return Ok(lists);
    }
    children_among_all(files, alloc, tags, parent, child)
}

// The same, found by going over the files.
fn children_among_all(
    files: &FileList,
    alloc: Global,
    tags: &mut Tags,
    parent: u64,
    child: u64,
) -> Result<Vec<FileMaps>, AllocError>
    ensures ready { IfOk result (λ lists.
        AreReady parent child files.now.files (spread lists.items)) }
    ensures fit { IfOk result (λ lists. AreFit 0 files.now.files lists.items) }
{
    let mut lists = Vec::new(alloc);
    for file in 0..files.len() {
        let list = files[file].children(alloc, tags, parent, child)?;
        lists.push(FileMaps { file, list })?;
    }
    Ok(lists)
}

// How many copies the maps of some lists have, or the greatest number where they have more.
fn all_copies(lists: &[FileMaps]) -> u64
    ensures { result < 2 ^ 64 - 1 → result ≡ sum_by list_copies (spread lists.now) }
{
    let mut count: u64 = 0;
    for maps in lists {
        count = count.saturating_add(copies_of(&maps.list));
    }
    count
}

/// Room for `held` pages beside those for copies that several maps hold, once the copies of some lists are among them; or
/// more than can be.
pub fn room_for(held: u64, more: usize, lists: &[FileMaps]) -> usize
    ensures { result < 2 ^ 64 - 1 → result ≡ held + more + sum_by list_copies (spread lists.now) }
{
    let room = held.saturating_add(more as u64);
    room.saturating_add(all_copies(lists)) as usize
}

// The file at a place gets the child's maps of a list: each of their copies has a holder more, and where they stand is noted.
// No file is looked at where the list is empty.
fn join_at<N: Naming>(
    child: u64,
    at: usize,
    list: Vec<Mapping>,
    files: &mut FileList,
    hints: &Hints,
    pages: &mut HeldPages<N>,
)
    requires within { at < length files.old.files }
    requires room { HasRoom (numbered_at files.old.files at) list }
    requires held { AreHeld (λ n. in_list n list.items) pages.old }
    requires few { pages.old.more + list_copies list.items ≤ 2 ^ 32 }
    ensures files { files.new.files ≡ joined_at at list.items files.old.files }
    ensures sharing { AreShared (λ n. in_list n list.items) (list_copies list.items) pages.old
        pages.new }
{
    if list.is_empty() {
        return;
    }
    let before = files[at].map_count();
    files[at].join(list, pages);
    let tag = files.tag(at);
    files[at].note_maps(child, before, FileTag::new(at, tag), hints);
}

/// Files get the maps of their lists, and each of their copies has a holder more. Where they stand is noted, and their tags. It
/// takes a step for each of the maps.
pub fn join_all<N: Naming>(
    child: u64,
    mut lists: Vec<FileMaps>,
    files: &mut FileList,
    hints: &Hints,
    pages: &mut HeldPages<N>,
)
    requires fit { AreFit 0 files.old.files lists.items }
    requires held { AreHeld (λ n. in_lists n (spread lists.items)) pages.old }
    requires few { pages.old.more + sum_by list_copies (spread lists.items) ≤ 2 ^ 32 }
    ensures joined { HaveJoined (spread lists.items) files.old.files files.new.files
        pages.old.store pages.new.store pages.old.more pages.new.more }
{
    while let Some(FileMaps { file, list }) = lists.pop() {
        join_at(child, file, list, files, hints, pages);
    }
}

/// Files without name and maps go, and the others move down. Where no map went, each is used, and none is looked at.
pub fn retain_some_used(gone: u64, files: &mut FileList)
    requires { gone ≡ 0 → filter is_used files.old.files ≡ files.old.files }
    ensures { files.new.files ≡ filter is_used files.old.files }
{
    if gone > 0 {
        files.retain_used();
    }
}
