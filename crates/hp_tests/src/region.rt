//! A set of indices.
ghost use Rattle.std.specs.Prelude.{◌<◌};

use crate::same::same;
use hp_region::RegionList;
use std::alloc::AllocError;
use std::process::Abort;
use std::test::Fail;

// So many indices of a range are in the set.
fn has<R: Abort>(rt: &R, list: &RegionList, a: u64, b: u64, count: u64) {
    same!(rt; list.count(a, b), count);
}

fn shows<R: Abort>(rt: &R, list: &RegionList, i: u64, is_in: bool) {
    same!(rt; list.contains(i), is_in);
}

// So many indices go.
fn removes<R: Abort>(
    rt: &R,
    list: &mut RegionList,
    a: u64,
    b: u64,
    count: u64,
) -> Result<(), AllocError> {
    same!(rt; list.remove(a, b)?, count);
    Ok(())
}

#[test]
fn each_call_once(rt: HostRuntime) -> Result<(), Fail> {
    let mut list = RegionList::new(rt.alloc());
    list.make_room(4)?;
    list.add(3, 11)?;
    for i in 1..5 {
        removes(&rt, &mut list, 2 * i, 2 * i + 1, if i == 1 { 0 } else { 1 })?;
    }
    has(&rt, &list, 0, 20, 5);
    same!(rt; list.missing(0, 11), 6);
    shows(&rt, &list, 9, true);
    shows(&rt, &list, 8, false);
    list.add(4, 9)?;
    has(&rt, &list, 0, 20, 8);
    removes(&rt, &mut list, 0, 100, 8)?;
    Ok(())
}

#[test]
fn every_second_index_goes_in_the_room_that_was_made(rt: HostRuntime) -> Result<(), Fail> {
    let mut list = RegionList::new(rt.alloc());
    list.make_room(32768 + 1)?;
    assert!(rt; list.add(0, 65536).is_ok());
    for i in 0..32768 {
        assert!(rt; removes(&rt, &mut list, 2 * i, 2 * i + 1, 1).is_ok());
    }
    has(&rt, &list, 0, 65536, 32768);
    shows(&rt, &list, 65535, true);
    shows(&rt, &list, 65534, false);
    Ok(())
}

// An index of the first 100 goes, of which so many were taken before. A refusal changes nothing,
// and it is tried again. Answers how often it was refused.
fn removes_at_last<R: Abort>(rt: &R, list: &mut RegionList, i: u64) -> Result<u64, AllocError>
    requires { i < 40 }
{
    if removes(rt, list, 2 * i, 2 * i + 1, 1).is_ok() {
        return Ok(0);
    }
    has(rt, list, 0, 100, 100 - i);
    shows(rt, list, 2 * i, true);
    removes(rt, list, 2 * i, 2 * i + 1, 1)?;
    Ok(1)
}

// Run with each allocation failing in turn.
#[test]
fn a_refusal_changes_nothing(rt: HostRuntime) -> Result<(), Fail> {
    let mut list = RegionList::new(rt.alloc());
    if list.make_room(1).is_err() {
        has(&rt, &list, 0, 100, 0);
        list.make_room(1)?;
    }
    list.add(0, 100)?;
    let mut failed = 0;
    for i in 0..40 {
        if removes_at_last(&rt, &mut list, i)? > 0 {
            failed = 1;
        }
    }
    has(&rt, &list, 0, 100, 60);
    if list.make_room(100).is_err() {
        has(&rt, &list, 0, 100, 60);
        failed = 1;
    }
    assert!(rt; failed < 2);
    Ok(())
}
