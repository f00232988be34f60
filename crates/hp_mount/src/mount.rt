//! A mount.
ghost use Rattle.std.specs.Prelude.{◌≡◌, ◌≢◌, ◌≤◌, ℕ, [], length, true, false, None, Ok, Err, Some, IfErr, OnErr, OnOk};
ghost use Rattle.hp_model.specs.declared.refusal.Refusal.TheVariants as Refusal;
ghost use Rattle.hp_model.specs.declared.answer.Answer.TheVariants.{Done};
ghost use Rattle.hp_model.specs.declared.event.SlotEvent.TheVariants.{Df};
ghost use Rattle.hp_model.specs.threads.LocalRun.{ThroughDoor};
ghost use Rattle.hp_model.specs.machine.Plan.{gives};
ghost use Rattle.hp_model.specs.machine.SlotEvent.{has_maps};
ghost use Rattle.hp_model.specs.beside.Told.{told_reply};
ghost use Rattle.hp_model.specs.text.Writing.{IsSmallLimit, IsWithinLimits};
ghost use Rattle.hp_model.specs.Profile.{most_bytes};
ghost use Rattle.hp_mount_laws.specs.Alone.{IsDoneAlone};
ghost use Rattle.hp_mount_laws.specs.Done.{IsDone};
ghost use Rattle.hp_events.specs.Event.{is_of_mount, is_usage, shows_bytes};
ghost use Rattle.hp_mount_laws.specs.Kept.{mount_from};
ghost use Rattle.hp_events.specs.Memory.{asks_memory};

mod contents;
mod filling;
mod forking;
mod giving;
mod leaving;
mod looking;
mod making;
mod placing;
mod private;
mod reach;
mod remounting;
mod running;

use hp_events::LentEvent;
use hp_model::event::SlotEvent;
use hp_model::naming::Naming;
use hp_model::refusal::Refusal;
use hp_model::told::Told;
use hp_mount_door::PoolDoor;
use hp_mount_files::{Files, MapRange};
use hp_subpool::Subpool;
pub use reach::MapAccess;
use std::alloc::Global;
use std::marker::Model;

/// A mount: its share of the pool, its limit of files, and its files with their maps. Contracts see the mount of the
/// definitions. It can't be dropped: `close` ends it.
///
/// The share (`Subpool`) holds the pages in use, the reservations of all entries without a page and of owners, and what
/// is kept for the minimum. Each reservation has room for its page.
pub struct Mount<N: Naming> {
    share: Subpool<N>,
    inodes: Option<u64>,
    files: Files<N>,
}

impl<N: Naming> Model for Mount<N> {
    ghost use Rattle.hp_model.specs.files.File.{Mount as MountValue};
    ghost use Rattle.hp_mount_laws.specs.Kept.{IsKept, mount_from};

    ghost Value = { MountValue };

    ghost view = { λ s. mount_from s.share s.inodes s.files.files };

    ghost invariant = { λ s. IsKept s.share s.files (mount_from s.share s.inodes s.files.files) };
}

// A limit as it is. Its number is below 2^64, as each number of the code.
fn told(limit: Option<u64>) -> Option<u64>
    ensures same { result ≡ limit }
    ensures small { IsSmallLimit result }
{
    match limit {
        Some(most) => Some(most),
        None => None,
    }
}

impl<N: Naming> Mount<N> {
    /// A mount without files, by a share of which nothing is in use, and its limit of files. It takes no memory.
    pub fn new(alloc: Global, share: Subpool<N>, inodes: Option<u64>) -> Self
        requires pages { share.pages ≡ 0 }
        requires held { share.held ≡ 0 }
        ensures { result ≡ mount_from share inodes [] }
    {
        let frames = share.frames() as usize;
        Mount {
            share,
            inodes,
            files: Files::new(alloc, frames),
        }
    }

    /// The mount's limits, its pages in use and reservations, and how many files it has. Never refused.
    pub fn usage(&self) -> Told<'static>
        ensures done { (size k : ℕ)
            → IsDoneAlone size k (Some self.now) Df (told_reply (Ok result)) (Some self.now) }
        ensures limits { IsWithinLimits (told_reply (Ok result)) }
    {
        Told::Usage {
            max: told(self.share.max()),
            min: self.share.min(),
            used: self.share.used(),
            inodes: told(self.inodes),
            files: self.files.count() as u64,
        }
    }

    /// What a step asks of the mount. It is done in one section of the pool at most.
    ///
    /// Refused as the definitions say, and then nothing changes; as TraceFull where the door has no room to note a section.
    /// An access asks for no memory where its index is reserved to its map, or where it makes neither a page nor a copy.
    /// Bytes are answered in the front of the room, which has `MOST_BYTES` where an event answers any.
    #[inline(always)]
    pub fn apply<'a, D: PoolDoor<N>>(
        &mut self,
        door: &mut D,
        page_bytes: u64,
        event: &LentEvent<'_>,
        room: &'a mut [u8],
    ) -> Result<Told<'a>, Refusal>
        requires ready { D.is_ready door.old }
        requires page_bytes { page_bytes ≡ N.page_bytes }
        requires of_mount { is_of_mount event.now ≡ true }
        requires room { shows_bytes event.now ≡ true → most_bytes ≤ length room.old }
        ensures done { (k : ℕ) → IsDone D.took D.is_full N.page_bytes k (Some self.old) door.old
            event.now (told_reply result) (Some self.new) door.new }
        ensures left { D.is_left door.new }
        ensures memory { asks_memory (Some self.old) event.now ≡ false
            → told_reply result ≢ Err Refusal.OutOfMemory }
        ensures limits { is_usage event.now ≡ true → IsWithinLimits (told_reply result) }
    {
        match event {
            SlotEvent::Create { name } => Told::done(self.create(name.as_slice())),
            SlotEvent::Ls => self.ls(),
            SlotEvent::Df => Ok(self.usage()),
            SlotEvent::Unlink { name } => Told::done(self.unlink(door, name.as_slice())),
            SlotEvent::Truncate { name, pages } => {
                Told::done(self.truncate(door, name.as_slice(), *pages))
            }
            SlotEvent::Punch { name, from, to } => {
                Told::done(self.punch(door, name.as_slice(), *from..*to))
            }
            SlotEvent::Preallocate { name, from, to } => {
                Told::done(self.preallocate(door, name.as_slice(), *from, *to))
            }
            SlotEvent::Stat { name } => self.stat(name.as_slice()),
            SlotEvent::Read {
                name,
                index,
                offset,
                count,
            } => {
                let name = name.as_slice();
                Told::bytes(self.read(page_bytes, name, *index, *offset, *count, room))
            }
            SlotEvent::Map {
                task,
                home,
                name,
                from,
                pages,
                sharing,
                reserving,
            } => {
                let range = MapRange {
                    task: *task,
                    start: *from,
                    pages: *pages,
                    sharing: *sharing,
                    reserving: *reserving,
                };
                Told::map_no(self.map(door, *home, name.as_slice(), &range))
            }
            SlotEvent::Anon {
                task,
                home,
                pages,
                sharing,
                reserving,
            } => Told::map_no(self.anon(door, *home, *task, *pages, *sharing, *reserving)),
            SlotEvent::Unmap {
                task,
                map,
                from,
                to,
            } => Told::done(self.unmap(door, *task, *map, *from..*to)),
            SlotEvent::Fault {
                task,
                home,
                map,
                index,
                intent,
            } => {
                let access = MapAccess {
                    task: *task,
                    map: *map,
                    index: *index,
                };
                Told::done(self.fault(door, *home, &access, *intent))
            }
            SlotEvent::Load {
                task,
                home,
                map,
                index,
                offset,
                count,
            } => {
                let access = MapAccess {
                    task: *task,
                    map: *map,
                    index: *index,
                };
                Told::bytes(self.load(door, page_bytes, *home, &access, *offset, *count, room))
            }
            SlotEvent::Store {
                task,
                home,
                map,
                index,
                offset,
                bytes,
            } => {
                let access = MapAccess {
                    task: *task,
                    map: *map,
                    index: *index,
                };
                let bytes = bytes.as_slice();
                Told::done(self.store(door, page_bytes, *home, &access, *offset, bytes))
            }
            _ => unreachable!(),
        }
    }

    /// Ends a mount without maps, with its files. Their pages and reservations go back to the pool, and the minimum with
    /// them; pages that became unneeded surplus leave the pool.
    ///
    /// While a map is left the mount is busy: it is handed back as it was.
    pub fn close<D: PoolDoor<N>>(self, door: &mut D) -> Result<(), Self>
        requires ready { D.is_ready door.old }
        ensures free { OnOk result (has_maps self ≡ false) }
        ensures done { OnOk result (ThroughDoor D.took (gives Done (Some self) None)
            (Some self) door.old (Ok Done) None door.new) }
        ensures busy { OnErr result (has_maps self ≡ true) }
        ensures same { IfErr result (λ m. m ≡ self) }
        ensures door { OnErr result (door.new ≡ door.old) }
        ensures left { D.is_left door.new }
    {
        if self.files.map_count() > 0 {
            return Err(self);
        }
        let Mount {
            mut share,
            inodes: _,
            files,
        } = self;
        let mut going = files.close();
        door.empty(&mut share, &mut going);
        share.end();
        going.close();
        Ok(())
    }
}
