//! The machine.
ghost use Rattle.std.specs.Prelude.{false, ◌≡◌, ◌<◌, ◌≤◌, [], length, vec_capacity, All, IfOk};
ghost use Rattle.hp_model.specs.machine.Machine.{slots_from, start};
ghost use Rattle.hp_model.specs.pool.PoolCounts.{IsSettled, Pool as PoolValue, counts_of};
ghost use Rattle.hp_nodes.specs.Ledgers.{AreFrames};
ghost use Rattle.hp_pool.specs.Ledgers.{AreLedgers};
ghost use Rattle.hp_model.specs.machine.SlotEvent.{has_maps};
ghost use Rattle.hp_model.specs.Profile.{most_frames, most_frames_in_all};
ghost use Rattle.hp_mount_door.specs.Door.{IsReady as IsReadyPool};
ghost use Rattle.hp_system.specs.Event.{AllExit, AllGo};
ghost use Rattle.hp_system.specs.Sized.{all_free};
ghost use Rattle.hp_model.specs.machine.Ready.{IsReadyMachine, machine_of};

mod service;
mod slots;
mod steps;

use hp_model::answer::Counts;
use hp_model::naming::Naming;
use hp_mount::Mount;
use hp_own_pool::OwnPool;
use hp_pool::Blanks;
use hp_tasks::TaskTable;
use std::alloc::{AllocError, Global};
use std::marker::Model;

/// The machine. Contracts see its state and the pool's own numbers. Each step wants that these are the sums over files and
/// maps (`IsReadyMachine`), and keeps it. It can't be dropped: `close` ends it.
pub struct System<N: Naming> {
    page_bytes: usize,
    alloc: Global,
    slots: Vec<Option<Mount<N>>>,
    table: TaskTable,
    pool: OwnPool<N>,
}

impl<N: Naming> Model for System<N> {
    ghost use Rattle.hp_system.specs.Sized.{IsSized};
    ghost use Rattle.hp_model.specs.machine.Ready.{Machine, machine_of};

    ghost Value = { Machine };

    ghost view = { λ s. machine_of s.page_bytes s.table s.slots.items s.pool };

    ghost invariant = { λ s. IsSized s.page_bytes N.page_bytes };
}

impl<N: Naming> System<N> {
    /// A machine of 1 to 4 nodes with so many frames each, of `page_bytes` bytes, which the blanks have, and with so many
    /// slots. Slot 0 is mounted without limits, and no other slot is. There is no task, no file and
    /// no page in the pool.
    ///
    /// Takes the memory of the slots and of the task table at once; that of the pages was taken for the blanks. Where some
    /// is refused, all is given back before the error is answered.
    pub fn new(
        alloc: Global,
        frames: &[u64],
        page_bytes: usize,
        slots: u64,
        blanks: Blanks,
    ) -> Result<Self, AllocError>
        requires some { 0 < length frames.now }
        requires few { length frames.now ≤ 4 }
        requires small { All (λ f. f ≤ most_frames) frames.now }
        requires slots { 0 < slots }
        requires bytes { 0 < page_bytes }
        requires page_bytes { page_bytes ≡ N.page_bytes }
        requires ledgers { AreLedgers N.Naming blanks }
        requires frames { AreFrames N.frames frames.now }
        ensures start { IfOk result (λ s. s.state ≡ start frames.now page_bytes slots) }
        ensures ready { IfOk result (λ s. IsReadyMachine s) }
    {
        let table = TaskTable::new(alloc)?;
        let mut mounts = Vec::with_capacity(alloc, slots as usize)?;
        match OwnPool::new(alloc, frames, blanks) {
            Err(error) => {
                mounts.destroy_empty();
                Err(error)
            }
            Ok(mut pool) => {
                open_slots(alloc, &mut mounts, slots as usize, &mut pool);
                Ok(System {
                    page_bytes,
                    alloc,
                    slots: mounts,
                    table,
                    pool,
                })
            }
        }
    }

    /// Ends the machine with all that it has: maps, files, mounts and tasks. It answers the pool's numbers
    /// (pages) once all of these are gone. Where the pool's numbers were the sums over files and maps, all pages that were
    /// persistent are free again, and none is promised or surplus. Never refused; it takes no memory.
    pub fn close(self) -> Counts
        requires ready { IsReadyPool self.pool }
        ensures counts { (left : PoolValue) × AllGo self.state.slots self.pool left
            × (result ≡ counts_of left) }
        ensures free { IsReadyMachine self → result ≡ all_free self.state }
        ensures few { result.total ≤ most_frames_in_all }
    {
        let System {
            page_bytes: _,
            alloc: _,
            mut slots,
            table: _,
            mut pool,
        } = self;
        while let Some(slot) = slots.pop() {
            if let Some(mount) = slot {
                let mut last = mount;
                exit_all(&mut last, &mut pool);
                match last.close(&mut pool) {
                    Ok(()) => {}
                    Err(_mount) => unreachable!(),
                }
            }
        }
        slots.destroy_empty();
        let (pool, frames) = pool.into_parts();
        frames.close();
        pool.law();
        pool.close()
    }
}

/// What a machine is made of: the bytes of a page, the slots, the task table, and the pool with the frames that nobody holds.
pub struct Parts<N: Naming> {
    pub page_bytes: usize,
    pub slots: Vec<Option<Mount<N>>>,
    pub table: TaskTable,
    pub pool: OwnPool<N>,
}

/// The machine and its parts.
impl<N: Naming> System<N> {
    /// A machine of these parts.
    pub fn from_parts(alloc: Global, parts: Parts<N>) -> Self
        requires page_bytes { parts.page_bytes ≡ N.page_bytes }
        requires some { 0 < parts.page_bytes }
        ensures { result ≡ machine_of parts.page_bytes parts.table parts.slots.items parts.pool }
    {
        let Parts {
            page_bytes,
            slots,
            table,
            pool,
        } = parts;
        System {
            page_bytes,
            alloc,
            slots,
            table,
            pool,
        }
    }

    /// The parts of the machine.
    pub fn into_parts(self) -> Parts<N>
        ensures machine { self ≡ machine_of result.page_bytes result.table result.slots.items
            result.pool }
        ensures page_bytes { result.page_bytes ≡ N.page_bytes }
    {
        let System {
            page_bytes,
            alloc: _,
            slots,
            table,
            pool,
        } = self;
        Parts {
            page_bytes,
            slots,
            table,
            pool,
        }
    }
}

// The maps of all tasks go from a mount, those of one task after those of another.
fn exit_all<N: Naming>(mount: &mut Mount<N>, pool: &mut OwnPool<N>)
    requires { IsReadyPool pool.old }
    ensures none { has_maps mount.new ≡ false }
    ensures gone { AllExit mount.old pool.old mount.new pool.new }
    ensures ready { IsReadyPool pool.new }
{
    while let Some(task) = mount.first_task() {
        mount.exit_maps(pool, task);
    }
}

// Slot 0 with a mount without limits, and the other slots without one. There is room for them.
fn open_slots<N: Naming>(
    alloc: Global,
    slots: &mut Vec<Option<Mount<N>>>,
    count: usize,
    pool: &mut OwnPool<N>,
)
    requires none { slots.old.items ≡ [] }
    requires some { 0 < count }
    requires room { count ≤ vec_capacity slots.old }
    requires settled { IsSettled pool.old }
    ensures slots { slots.new.items ≡ slots_from count }
    ensures pool { pool.new ≡ pool.old }
{
    match pool.share(None, 0) {
        Ok(share) => slots.push_reserved(Some(Mount::new(alloc, share, None))),
        Err(_refusal) => unreachable!(),
    }
    for _ in 1..count {
        slots.push_reserved(None);
    }
}
