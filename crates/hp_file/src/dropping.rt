//! What files and maps hold goes.
ghost use Rattle.std.specs.Prelude.{◌≡◌, ℕ, ◌+◌, ◌<◌, ◌≤◌, ◌^◌, List, IsSome, drop, length, map, slice_index_or, slice_set};
ghost use Rattle.std.specs.List.{sum_by};
ghost use Rattle.hp_model.specs.files.File.{cell_punched};
ghost use Rattle.hp_model.specs.declared.place.Place.TheVariants.{Gone};
ghost use Rattle.hp_model.specs.files.Mapping.{copy_of, map_punched, without_range};
ghost use Rattle.hp_mapping.specs.Mapped.{reserves_in};
ghost use Rattle.hp_model.specs.Lists.{edit_range};
ghost use Rattle.hp_store.specs.Store.{dropped, holders_of, page_at};
ghost use Rattle.hp_lookup.specs.Held.{in_cell, in_map, in_place, more_in};
ghost use Rattle.hp_lookup.specs.Numbered.{no_mapping};
ghost use Rattle.hp_file.specs.HeldPages.{AreDropped, AreHeld};
ghost use Rattle.hp_file.specs.Taking.{robbed_at};
ghost use Rattle.hp_lookup.specs.Leaving.{ended_for, owed};

use crate::held_pages::HeldPages;
use hp_inode::Inode;
use hp_mapping::{Mapping, PackedPlace, copy_in};
use hp_model::naming::Naming;
use hp_model::page_no::PageNo;
use hp_store::PageStore;

/// A holder of a page goes, and with its last one the page.
pub fn drop_holder<N: Naming>(number: PageNo, pages: &mut HeldPages<N>)
    requires held { 0 < holders_of (page_at pages.old.store number) }
    requires counted { pages.old.more ≡ more_in pages.old.store.pages }
    ensures dropped { pages.new.store ≡ dropped number pages.old.store }
    ensures counted { pages.new.more ≡ more_in pages.new.store.pages }
{
    if !pages.store.drop_one(number) {
        pages.more -= 1;
    }
}

/// Takes the pages of a file's indices from `a` up to `b`, with their entries. Entries without a page stay. It takes a
/// step for each page that was there.
pub fn drop_pages<N: Naming>(inode: &mut Inode, a: u64, b: u64, pages: &mut HeldPages<N>)
    requires { AreHeld (λ n. sum_by (in_cell n) inode.old) pages.old }
    ensures cells { inode.new ≡ edit_range cell_punched a b inode.old }
    ensures dropping { AreDropped (λ n. sum_by (in_cell n) inode.old)
        (λ n. sum_by (in_cell n) inode.new) pages.old pages.new }
{
    while let Some(number) = inode.take_page(a, b) {
        drop_holder(number, pages);
    }
}

// A holder of a page goes, and with its last one the page. `gone` counts the pages that went.
fn drop_counting<N: Naming>(number: PageNo, store: &mut PageStore<N>, gone: &mut usize)
    requires held { 0 < holders_of (page_at store.old number) }
    requires few { gone.old < 2 ^ 63 }
    ensures dropped { store.new ≡ dropped number store.old }
    ensures counted { more_in store.new.pages + gone.old + 1 ≡ more_in store.old.pages + gone.new }
    ensures one { gone.new ≤ gone.old + 1 }
{
    if store.drop_one(number) {
        *gone += 1;
    }
}

// The copies of some places go, up to the first place without a copy, which is answered.
fn drop_run<N: Naming>(places: &[PackedPlace], pages: &mut HeldPages<N>) -> usize
    requires { AreHeld (λ n. sum_by (in_place n) places.now) pages.old }
    ensures past { IsSome (copy_of (slice_index_or places.now 0 Gone)) → 0 < result }
    ensures within { result ≤ length places.now }
    ensures dropping { AreDropped (λ n. sum_by (in_place n) places.now)
        (λ n. sum_by (in_place n) (drop result places.now)) pages.old pages.new }
{
    let mut at = 0;
    let mut gone = 0;
    while at < places.len() {
        let Some(number) = copy_in(&places[at]) else {
            break;
        };
        drop_counting(number, &mut pages.store, &mut gone);
        at += 1;
    }
    pages.more -= at - gone;
    at
}

/// The copies of a map that is gone go. It takes a step for each.
pub fn drop_map<N: Naming>(map: &Mapping, pages: &mut HeldPages<N>)
    requires { AreHeld (λ n. in_map n map.now) pages.old }
    ensures { AreDropped (λ n. in_map n map.now) (λ n. 0) pages.old pages.new }
{
    let end = map.end();
    let mut from = map.start();
    while let Some(at) = map.lowest_copy(from, end) {
        let past = drop_run(map.run_from(at), pages);
        from = at + past as u64;
    }
}

/// Takes a map's private copies of the indices from `a` up to `b`. It takes a step for each copy that was there.
pub fn drop_copies<N: Naming>(map: &mut Mapping, a: u64, b: u64, pages: &mut HeldPages<N>)
    requires { AreHeld (λ n. in_map n map.old) pages.old }
    ensures map { map.new ≡ map_punched a b map.old }
    ensures dropping { AreDropped (λ n. in_map n map.old)
        (λ n. in_map n map.new) pages.old pages.new }
{
    while let Some(number) = map.take_copy(a, b) {
        drop_holder(number, pages);
    }
}

/// The same of each of some maps.
pub fn drop_all_copies<N: Naming>(maps: &mut [Mapping], a: u64, b: u64, pages: &mut HeldPages<N>)
    requires { AreHeld (λ n. sum_by (in_map n) maps.old) pages.old }
    ensures maps { maps.new ≡ map (map_punched a b) maps.old }
    ensures dropping { AreDropped (λ n. sum_by (in_map n) maps.old)
        (λ n. sum_by (in_map n) maps.new) pages.old pages.new }
{
    for map in maps.iter_mut() {
        drop_copies(map, a, b, pages);
    }
}

// A map that has the page as its copy at an index loses it, and is marked.
fn take_from<N: Naming>(map: &mut Mapping, index: u64, number: PageNo, pages: &mut HeldPages<N>)
    requires { AreHeld (λ n. in_map n map.old) pages.old }
    ensures map { map.new ≡ robbed_at number index map.old }
    ensures dropping { AreDropped (λ n. in_map n map.old)
        (λ n. in_map n map.new) pages.old pages.new }
{
    if map.copy_at(index) != Some(number) {
        return;
    }
    map.take_away(index);
    drop_holder(number, pages);
}

/// All maps but one lose the page as their copy at an index, and are marked. It takes a step for each.
pub fn take_from_others<N: Naming>(
    maps: &mut [Mapping],
    keeper: usize,
    index: u64,
    number: PageNo,
    pages: &mut HeldPages<N>,
)
    requires keeper { keeper < length maps.old }
    requires held { AreHeld (λ n. sum_by (in_map n) maps.old) pages.old }
    ensures maps { maps.new ≡ slice_set (map (robbed_at number index) maps.old) keeper
        (slice_index_or maps.old keeper no_mapping) }
    ensures dropping { AreDropped (λ n. sum_by (in_map n) maps.old)
        (λ n. sum_by (in_map n) maps.new) pages.old pages.new }
{
    for (at, map) in maps.iter_mut().enumerate() {
        if at == keeper {
            continue;
        }
        take_from(map, index, number, pages);
    }
}

/// A file's indices from `a` up to `b` leave a map, with its copies of them. Answers how many reservations that frees. It
/// takes a step for each index that was there.
pub fn leave_range<N: Naming>(map: &mut Mapping, a: u64, b: u64, pages: &mut HeldPages<N>) -> u64
    requires order { a ≤ b }
    requires held { AreHeld (λ n. in_map n map.old) pages.old }
    ensures map { map.new ≡ without_range a b map.old }
    ensures dropping { AreDropped (λ n. in_map n map.old)
        (λ n. in_map n map.new) pages.old pages.new }
    ensures freed { result ≡ reserves_in a b map.old }
{
    drop_copies(map, a, b, pages);
    map.unmap(a, b)
}

// A map of the task loses all its indices, with what it holds. Answers how many reservations went.
fn end_map_of<N: Naming>(task: u64, map: &mut Mapping, pages: &mut HeldPages<N>) -> u64
    requires { AreHeld (λ n. in_map n map.old) pages.old }
    ensures map { map.new ≡ ended_for task map.old }
    ensures dropping { AreDropped (λ n. in_map n map.old)
        (λ n. in_map n map.new) pages.old pages.new }
    ensures reserves { result + owed map.new ≡ owed map.old }
{
    if map.task() != task {
        return 0;
    }
    let start = map.start();
    let end = map.end();
    leave_range(map, start, end, pages)
}

/// The maps of a task lose all their indices, with what they hold. Answers how many reservations went.
pub fn end_maps_of<N: Naming>(task: u64, maps: &mut [Mapping], pages: &mut HeldPages<N>) -> u64
    requires held { AreHeld (λ n. sum_by (in_map n) maps.old) pages.old }
    requires few { sum_by owed maps.old < 2 ^ 64 }
    ensures maps { maps.new ≡ map (ended_for task) maps.old }
    ensures dropping { AreDropped (λ n. sum_by (in_map n) maps.old)
        (λ n. sum_by (in_map n) maps.new) pages.old pages.new }
    ensures reserves { result + sum_by owed maps.new ≡ sum_by owed maps.old }
{
    let mut reserves = 0;
    for map in maps.iter_mut() {
        reserves += end_map_of(task, map, pages);
    }
    reserves
}

/// The copies of maps that are gone go. It takes a step for each map and copy.
pub fn drop_maps<N: Naming>(maps: &[Mapping], pages: &mut HeldPages<N>)
    requires { AreHeld (λ n. sum_by (in_map n) maps.now) pages.old }
    ensures { AreDropped (λ n. sum_by (in_map n) maps.now) (λ n. 0) pages.old pages.new }
{
    for map in maps {
        drop_map(map, pages);
    }
}
