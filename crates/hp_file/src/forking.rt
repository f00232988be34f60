//! A child's maps.
ghost use Rattle.std.specs.Prelude.{◌≡◌, ◌==◌, if◌then◌else◌, ℕ, ◌+◌, ◌-◌, ◌<◌, ◌≤◌, ◌^◌, IsSome, drop, length, slice_index_or, vec_capacity, IfOk};
ghost use Rattle.std.specs.List.{count_by, sum_by};
ghost use Rattle.hp_mapping.specs.Mapped.{has_copy};
ghost use Rattle.hp_model.specs.declared.place.Place.TheVariants.{Gone};
ghost use Rattle.hp_model.specs.files.Mapping.{copy_of};
ghost use Rattle.hp_store.specs.Store.{holders_of, page_at};
ghost use Rattle.hp_lookup.specs.Dropping.{HasHolders};
ghost use Rattle.hp_lookup.specs.Forking.{IsShared, IsSharing, children_of, copies_in};
ghost use Rattle.hp_lookup.specs.Held.{in_map, in_place, more_in};
ghost use Rattle.hp_file.specs.HeldPages.{AreHeld, AreShared};

use crate::held_pages::HeldPages;
use hp_lookup::Tags;
use hp_mapping::{Mapping, PackedPlace, copy_in};
use hp_model::naming::Naming;
use hp_model::page_no::PageNo;
use hp_store::PageStore;
use std::alloc::{AllocError, Global};

// A page has a holder more.
fn add_holder<N: Naming>(number: PageNo, store: &mut PageStore<N>)
    requires held { 0 < holders_of (page_at store.old number) }
    requires some { HasHolders store.old }
    requires few { more_in store.old.pages < 2 ^ 32 }
    ensures sharing { IsSharing (λ n. if number == n then 1 else 0) store.old store.new }
    ensures counted { more_in store.new.pages ≡ more_in store.old.pages + 1 }
{
    store.share(number);
}

// The copies of some places have a holder more, up to the first place without a copy, which is answered.
fn share_run<N: Naming>(places: &[PackedPlace], pages: &mut HeldPages<N>) -> usize
    requires held { AreHeld (λ n. sum_by (in_place n) places.now) pages.old }
    requires few { pages.old.more + count_by has_copy places.now ≤ 2 ^ 32 }
    ensures past { IsSome (copy_of (slice_index_or places.now 0 Gone)) → 0 < result }
    ensures within { result ≤ length places.now }
    ensures shared { IsShared places.now (drop result places.now) pages.old.store pages.new.store }
    ensures counted { pages.new.more ≡ more_in pages.new.store.pages }
    ensures more { pages.new.more + count_by has_copy (drop result places.now) ≡ pages.old.more
        + count_by has_copy places.now }
{
    let mut at = 0;
    while at < places.len() {
        let Some(number) = copy_in(&places[at]) else {
            break;
        };
        add_holder(number, &mut pages.store);
        at += 1;
    }
    pages.more += at;
    at
}

// Each copy of a map has a holder more. It takes a step for each.
fn share_map<N: Naming>(map: &Mapping, pages: &mut HeldPages<N>)
    requires held { AreHeld (λ n. in_map n map.now) pages.old }
    requires few { pages.old.more + copies_in map.now ≤ 2 ^ 32 }
    ensures { AreShared (λ n. in_map n map.now) (copies_in map.now) pages.old pages.new }
{
    let end = map.end();
    let mut from = map.start();
    while let Some(at) = map.lowest_copy(from, end) {
        let past = share_run(map.run_from(at), pages);
        from = at + past as u64;
    }
}

/// How many copies some maps have, or the greatest number where they have more.
pub fn copies_of(maps: &[Mapping]) -> u64
    ensures { result < 2 ^ 64 - 1 → result ≡ sum_by copies_in maps.now }
{
    let mut count: u64 = 0;
    for map in maps {
        count = count.saturating_add(map.copy_count());
    }
    count
}

/// Each copy of some maps has a holder more. It takes a step for each map and copy.
pub fn share_all<N: Naming>(maps: &[Mapping], pages: &mut HeldPages<N>)
    requires held { AreHeld (λ n. sum_by (in_map n) maps.now) pages.old }
    requires few { pages.old.more + sum_by copies_in maps.now ≤ 2 ^ 32 }
    ensures { AreShared (λ n. sum_by (in_map n) maps.now)
        (sum_by copies_in maps.now) pages.old pages.new }
{
    for map in maps {
        share_map(map, pages);
    }
}

/// The maps that a child gets for those of a parent among some maps, in a list that has room for these as well.
pub fn children(
    maps: &[Mapping],
    alloc: Global,
    tags: &mut Tags,
    parent: u64,
    child: u64,
) -> Result<Vec<Mapping>, AllocError>
    ensures list { IfOk result (λ list. list.items ≡ children_of parent child maps.now) }
    ensures room { IfOk result (λ list. 0 < length list.items
        → length list.items + length maps.now ≤ vec_capacity list) }
{
    let mut list = Vec::new(alloc);
    for map in maps {
        if map.task() == parent {
            list.reserve(1)?;
            list.push_reserved(map.fork_for(tags.take(), child)?);
        }
    }
    if !list.is_empty() {
        list.reserve(maps.len())?;
    }
    Ok(list)
}
