//! Trails and receipts made by hand: some join, and some don't.

use crate::same::same;
use hp_model::answer::{Answer, Reply};
use hp_model::bytes::Bytes;
use hp_model::entry::{Asked, Part, PoolEntry, Receipt, SlotEntry, TableEntry};
use hp_model::event::{Event, PoolEvent, SlotEvent, TableEvent};
use hp_model::refusal::Refusal;
use hp_model::section::{PoolAnswer, Section};
use hp_model::step::{Reserving, Sharing};
use hp_trail::audit::audit;
use hp_trail::kept::Kept;
use hp_trail::trail::Trail;
use std::alloc::{AllocError, Global};
use std::test::Fail;

/// What is changed of the trails and receipts made by hand.
#[derive(Clone, Copy, PartialEq, Eq)]
enum Change {
    Nothing,
    ReceiptLeftOut,
    ReceiptGivenTwice,
    OtherReply,
    SectionElsewhere,
    OtherGrant,
    ReceiptsExchanged,
}

/// The events made by hand, each with the part and place of its entry.
#[derive(Clone, Copy)]
enum Told {
    Nr,
    Add,
    Create(u64),
    Find,
    Map(u64),
}

fn granted() -> PoolAnswer {
    PoolAnswer {
        granted: true,
        node: 0,
        nr: 0,
        pages: [0; 4],
    }
}

fn name(alloc: Global) -> Result<Bytes, AllocError> {
    Ok(Bytes::new(vec![in alloc; 97u8; 1]?))
}

fn create(alloc: Global) -> Result<SlotEvent<Bytes>, AllocError> {
    Ok(SlotEvent::Create { name: name(alloc)? })
}

fn map(alloc: Global) -> Result<SlotEvent<Bytes>, AllocError> {
    Ok(SlotEvent::Map {
        task: 1,
        home: 0,
        name: name(alloc)?,
        from: 0,
        pages: 1,
        sharing: Sharing::Shared,
        reserving: Reserving::Reserve,
    })
}

fn tasks(alloc: Global) -> Result<Vec<TableEntry>, AllocError> {
    let mut trail = Vec::new(alloc);
    trail.push(TableEntry {
        event: TableEvent::Add { task: 1, home: 0 },
        reply: Ok(Answer::Done),
    })?;
    trail.push(TableEntry {
        event: TableEvent::Find { task: 1 },
        reply: Ok(Answer::Home(0)),
    })?;
    Ok(trail)
}

/// A slot where a file is created and mapped; the map's section stands at this place.
fn slot(alloc: Global, place: u64) -> Result<Vec<SlotEntry>, AllocError> {
    let mut trail = Vec::new(alloc);
    trail.push(SlotEntry {
        event: create(alloc)?,
        reply: Ok(Answer::Done),
        asked: None,
    })?;
    trail.push(SlotEntry {
        event: map(alloc)?,
        reply: Ok(Answer::MapNo(1)),
        asked: Some(Asked {
            place,
            section: Section::Grant { home: 0, pages: 1 },
            answer: granted(),
        }),
    })?;
    Ok(trail)
}

/// The pool's trail: nr, and then this many grants of so many pages.
fn pool(alloc: Global, grants: usize, pages: u64) -> Result<Vec<PoolEntry>, AllocError> {
    let mut trail = Vec::new(alloc);
    trail.push(PoolEntry::OfPool {
        event: PoolEvent::Nr { pages: 4 },
        reply: Ok(Answer::Number(4)),
    })?;
    for _ in 0..grants {
        trail.push(PoolEntry::OfSlot {
            section: Section::Grant { home: 0, pages },
            answer: granted(),
        })?;
    }
    Ok(trail)
}

fn event_of(alloc: Global, told: Told) -> Result<Event, AllocError> {
    Ok(match told {
        Told::Nr => Event::Pool(PoolEvent::Nr { pages: 4 }),
        Told::Add => Event::Tasks(TableEvent::Add { task: 1, home: 0 }),
        Told::Create(slot) => Event::Slot {
            slot,
            event: create(alloc)?,
        },
        Told::Find => Event::Tasks(TableEvent::Find { task: 1 }),
        Told::Map(slot) => Event::Slot {
            slot,
            event: map(alloc)?,
        },
    })
}

fn receipt(alloc: Global, told: Told, map_number: u64) -> Result<Receipt, AllocError> {
    let (part, place) = match told {
        Told::Nr => (Part::Pool, 0),
        Told::Add => (Part::Tasks, 0),
        Told::Create(slot) => (Part::Slot(slot), 0),
        Told::Find => (Part::Tasks, 1),
        Told::Map(slot) => (Part::Slot(slot), 1),
    };
    let reply: Reply = match told {
        Told::Nr => Ok(Answer::Number(4)),
        Told::Add | Told::Create(_) => Ok(Answer::Done),
        Told::Find => Ok(Answer::Home(0)),
        Told::Map(_) => Ok(Answer::MapNo(map_number)),
    };
    Ok(Receipt {
        part,
        place,
        event: event_of(alloc, told)?,
        reply,
    })
}

fn session(alloc: Global, told: &[Told], map_number: u64) -> Result<Vec<Receipt>, AllocError> {
    let mut receipts = Vec::new(alloc);
    for one in told {
        receipts.push(receipt(alloc, *one, map_number)?)?;
    }
    Ok(receipts)
}

/// The events that the audit answers, or None where trails and receipts differ.
fn audited(
    alloc: Global,
    tasks: &[TableEntry],
    pool: &[PoolEntry],
    slots: &[Vec<SlotEntry>],
    receipts: Vec<Vec<Receipt>>,
) -> Result<Option<Vec<Event>>, AllocError> {
    match audit(alloc, tasks, pool, slots, receipts) {
        Ok(events) => Ok(Some(events)),
        Err(Refusal::TrailsDiffer) => Ok(None),
        Err(_) => Err(AllocError),
    }
}

fn made_by_hand(alloc: Global, change: Change) -> Result<Option<Vec<Event>>, AllocError> {
    let place = if change == Change::SectionElsewhere {
        0
    } else {
        1
    };
    let pages = if change == Change::OtherGrant { 2 } else { 1 };
    let number = if change == Change::OtherReply { 2 } else { 1 };
    let [nr, add, create, find, map] = [
        Told::Nr,
        Told::Add,
        Told::Create(0),
        Told::Find,
        Told::Map(0),
    ];
    let told = match change {
        Change::ReceiptLeftOut => session(alloc, &[nr, add, create, find], number)?,
        Change::ReceiptGivenTwice => session(alloc, &[nr, add, create, find, map, map], number)?,
        Change::ReceiptsExchanged => session(alloc, &[find, map, create, nr, add], number)?,
        _ => session(alloc, &[nr, add, create, find, map], number)?,
    };
    let mut slots = Vec::new(alloc);
    slots.push(slot(alloc, place)?)?;
    let mut receipts = Vec::new(alloc);
    receipts.push(told)?;
    audited(
        alloc,
        &tasks(alloc)?,
        &pool(alloc, 1, pages)?,
        &slots,
        receipts,
    )
}

#[test]
fn trails_made_by_hand_join(rt: HostRuntime) -> Result<(), Fail> {
    let alloc = rt.alloc();
    let mut expected = Vec::new(alloc);
    for told in [
        Told::Nr,
        Told::Add,
        Told::Create(0),
        Told::Find,
        Told::Map(0),
    ] {
        expected.push(event_of(alloc, told)?)?;
    }
    assert!(rt; made_by_hand(alloc, Change::Nothing)? == Some(expected));
    Ok(())
}

#[test]
fn each_change_of_them_differs(rt: HostRuntime) -> Result<(), Fail> {
    let alloc = rt.alloc();
    for change in [
        Change::ReceiptLeftOut,
        Change::ReceiptGivenTwice,
        Change::OtherReply,
        Change::SectionElsewhere,
        Change::OtherGrant,
        Change::ReceiptsExchanged,
    ] {
        assert!(rt; made_by_hand(alloc, change)?.is_none());
    }
    Ok(())
}

#[test]
fn closing_entries_have_places_of_their_own(rt: HostRuntime) -> Result<(), Fail> {
    let mut trail = Kept::open(rt.alloc(), 1, 1)?;
    same!(rt; trail.place(), 0);
    same!(rt; trail.has_room(false), true);
    trail.push(7u64);
    same!(rt; trail.has_room(false), false);
    same!(rt; trail.has_room(true), true);
    trail.push(8u64);
    same!(rt; trail.has_room(true), false);
    same!(rt; trail.place(), 2);
    assert!(rt; trail.into_entries().as_slice() == [7, 8].as_slice());
    Ok(())
}
