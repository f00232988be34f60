//! The machine that threads share.
ghost use Rattle.std.specs.Prelude.{◌≡◌, ◌<◌, ◌≤◌, ◌==◌, [], false, true, length, is_some, vec_len, vec_capacity, All, IfOk, IfSome, None, not};
ghost use Rattle.hp_history.specs.History.{IsSession, number_in, receipts_in};
ghost use Rattle.hp_locked.specs.Views.{frames_list};
ghost use Rattle.hp_model.specs.machine.Machine.{start};
ghost use Rattle.hp_model.specs.machine.Ready.{machine_of};
ghost use Rattle.hp_model.specs.machine.Settled.{IsSettledState};
ghost use Rattle.hp_model.specs.Profile.{most_frames, most_page_bytes, most_places, most_slots};
ghost use Rattle.hp_mount_door.specs.Door.{IsReady as IsReadyPool};
ghost use Rattle.hp_nodes.specs.Ledgers.{AreFrames};
ghost use Rattle.hp_pool.specs.Ledgers.{AreLedgers};
ghost use Rattle.hp_shared.specs.Ended.{HasEnded, IsCount};
ghost use Rattle.hp_shared.specs.Sharing.{EndsRuns, entries_of};
ghost use Rattle.hp_trail.specs.Walk.{trails_of};

use crate::ended::Ended;
use crate::making::{first_mount, lock_slots, open_history};
use crate::opener::Opener;
use crate::parting::take_slots;
use crate::parts::{Fresh, Parts};
use crate::seated_slot::SeatedSlot;
use crate::spare::Spare;
use crate::table::Table;
use hp_history::{History, Opened, Places, Token};
use hp_locked::{Core, Gate, NodeLocks, Ways};
use hp_model::entry::{PoolEntry, SlotEntry, TableEntry};
use hp_model::naming::Naming;
use hp_mount::Mount;
use hp_order::{LineLock, RankedLock, Turn, hold, let_go};
use hp_own_pool::OwnPool;
use hp_pool::Blanks;
use hp_tasks::TaskTable;
use hp_trail::trace::Trace;
use std::alloc::{AllocError, Global};
use std::marker::Model;
use std::sync::Wait;

/// The machine that threads share: the task table, the pool and each slot under a lock of its own, and the frames of each
/// node under one. Where K is 1 each part keeps a trail of its events, where K is 0 none.
///
/// What every step reads comes first, and each of the locks that steps take lies on cache lines of its own.
///
/// Nothing is known of a part until its lock is held. The machine can't be dropped: `into_parts` takes it apart, once no
/// session is left on it.
pub struct Shared<N: Naming + Places, const K: usize> {
    pub(crate) page_bytes: usize,
    alloc: Global,
    history: History<N>,
    slots: Vec<LineLock<SeatedSlot<N, Trace<SlotEntry, K>>>>,
    table: LineLock<Table<N, Trace<TableEntry, K>>>,
    core: LineLock<Core<N, Trace<PoolEntry, K>>>,
    nodes: NodeLocks<N>,
    opener: RankedLock<Opener<N>>,
    spare: RankedLock<Spare<N>>,
}

impl<N: Naming + Places, const K: usize> Model for Shared<N, K> {
    ghost use Rattle.std.specs.Prelude.{◌==◌, vec_len};
    ghost use Rattle.hp_shared.specs.Sharing.{IsSharedMachine, SharedView};

    ghost Value = { SharedView };

    ghost view = { λ s. record { page_size = s.page_bytes; slots = vec_len s.slots } };

    ghost invariant = { λ s. IsSharedMachine (K == 1) N.page_bytes N.frames N.shape
        (record { page_size = s.page_bytes; slots = vec_len s.slots }) };
}

/// A machine that no thread shares any more: the bytes of a page, the mount of each slot, the task table, the pool with the
/// frames that nobody holds, and the trails where they were kept.
pub struct Unshared<N: Naming> {
    pub page_bytes: usize,
    pub slots: Vec<Option<Mount<N>>>,
    pub table: TaskTable,
    pub pool: OwnPool<N>,
    pub trails: Option<Trails>,
}

/// The entries of all parts, each in its order.
#[derive(Drop)]
pub struct Trails {
    pub tasks: Vec<TableEntry>,
    pub pool: Vec<PoolEntry>,
    /// Those of each slot.
    pub slots: Vec<Vec<SlotEntry>>,
}

impl<N: Naming + Places, const K: usize> Shared<N, K> {
    /// A machine of 1 to 4 nodes with so many frames each, of `page_bytes` bytes, which the blanks have, and with so many
    /// slots; and with this history, of its shape. It starts as `System::new` has it. Where K is 1 each trail has `places` places, and beyond these those that
    /// entries which take away may need.
    ///
    /// Takes the memory of the slots, the task table and the trails at once. Where some is refused, all is given back before
    /// the error is answered.
    pub fn new(
        alloc: Global,
        frames: &[u64],
        page_bytes: usize,
        slots: usize,
        places: usize,
        blanks: Blanks,
        opened: Opened,
    ) -> Result<Self, AllocError>
        requires some { 0 < length frames.now }
        requires few { length frames.now ≤ 4 }
        requires each { All (λ f. 0 < f) frames.now }
        requires small { All (λ f. f ≤ most_frames) frames.now }
        requires slots { 0 < slots }
        requires few_slots { slots ≤ most_slots }
        requires places { places ≤ most_places }
        requires bytes { 0 < page_bytes }
        requires few_bytes { page_bytes ≤ most_page_bytes }
        requires page_bytes { page_bytes ≡ N.page_bytes }
        requires ledgers { AreLedgers N.Naming blanks }
        requires frames { AreFrames N.frames frames.now }
        requires history { opened.table.shared.table_id ≡ N.history }
        requires opened { opened.shape ≡ N.shape }
        requires shape { N.shape ≡ record {
          slots = slots;
          nodes = length frames.now;
          looks = not (K == 1);
        } }
        ensures { IfOk result (λ s. s ≡ record { page_size = page_bytes; slots = slots }) }
    {
        let parts = Parts::open(alloc, frames, slots, places)?;
        let mut own = match OwnPool::new(alloc, frames, blanks) {
            Ok(own) => own,
            Err(error) => {
                parts.close();
                return Err(error);
            }
        };
        let Parts {
            fresh,
            spare,
            mut locks,
        } = parts;
        let Fresh {
            tasks,
            of_tasks,
            of_pool,
            of_slots,
        } = fresh;
        let first = first_mount(alloc, &mut own);
        let (history, table, core, opener, seat) = open_history(opened);
        lock_slots(&history, seat, first, of_slots, &mut locks);
        let (pool, stocks) = own.into_parts();
        Ok(Shared {
            page_bytes,
            alloc,
            history,
            table: LineLock::new(Table::new(frames.len() as u64, tasks, of_tasks, table)),
            core: LineLock::new(Core::new(pool, of_pool, core)),
            nodes: NodeLocks::new(stocks),
            slots: locks,
            opener: RankedLock::new(opener),
            spare: RankedLock::new(spare),
        })
    }

    /// The bytes of a page.
    #[inline(always)]
    pub fn page_bytes(&self) -> u64
        ensures bytes { result ≡ self.now.page_size }
        ensures named { result ≡ N.page_bytes }
        ensures some { 0 < result }
        ensures most { result ≤ most_page_bytes }
    {
        self.page_bytes as u64
    }

    /// How many slots there are.
    #[inline(always)]
    pub fn count(&self) -> usize
        ensures count { result ≡ self.now.slots }
        ensures few { result ≤ most_slots }
    {
        self.slots.len()
    }

    /// What memory is taken from.
    pub fn alloc(&self) -> Global {
        self.alloc
    }

    /// The task table under its lock.
    #[inline(always)]
    pub fn table(&self) -> &RankedLock<Table<N, Trace<TableEntry, K>>> {
        self.table.lock()
    }

    /// The history of the machine. Where K is not 1 homes of tasks are looked up in its words, without a lock.
    #[inline(always)]
    pub fn history(&self) -> &History<N>
        ensures { N.shape.looks ≡ not (K == 1) }
    {
        &self.history
    }

    /// A session more, which was told nothing yet: its number, and its seat in the history.
    pub fn open_session<R: Wait>(&self, turn: &mut Turn, rt: &R) -> (u64, Token)
        requires { turn.old.held ≡ [] }
        ensures turn { turn.new.held ≡ [] }
        ensures number { IsCount result.0 (number_in result.1.me.0) }
        ensures named { result.1.table_id ≡ N.history }
        ensures session { IsSession result.1.me.0 }
        ensures none { receipts_in result.1.me.0 ≡ [] }
        ensures alone { result.1.me.1 ≡ [] }
    {
        let mut value = hold(turn, &self.opener, rt);
        let opener: &mut Opener<N> = &mut value;
        let opened = opener.open(&self.history);
        let_go(turn, value);
        opened
    }

    /// The ways from a slot to the pool and to the frames.
    #[inline(always)]
    pub fn ways<'a, R: Wait, G: Gate>(&'a self, rt: &'a R, gate: &'a G) -> Ways<'a, N, R, G, K> {
        Ways {
            rt,
            gate,
            core: self.core.lock(),
            nodes: &self.nodes,
            history: &self.history,
        }
    }

    /// The pool under its lock.
    #[inline(always)]
    pub fn core(&self) -> &RankedLock<Core<N, Trace<PoolEntry, K>>> {
        self.core.lock()
    }

    /// The frames of each node under a lock.
    #[inline(always)]
    pub fn nodes(&self) -> &NodeLocks<N> {
        &self.nodes
    }

    /// The slot at this place under its lock. A lock tells nothing of its value: that it is the slot of this number is asked
    /// of the slot itself.
    #[inline(always)]
    pub fn slot(&self, at: usize) -> &RankedLock<SeatedSlot<N, Trace<SlotEntry, K>>>
        requires { at < self.now.slots }
    {
        self.slots[at].lock()
    }

    /// What the machine is made of, with all that is on it, the trails where K is 1, and its history. These are runs of its parts,
    /// from the start of the machine to where it is, and at both K the history has such runs. Never refused; it takes no memory.
    pub fn into_parts(self) -> (Unshared<N>, Ended<N>)
        ensures ready { IsReadyPool result.0.pool }
        ensures named { result.0.page_bytes ≡ N.page_bytes }
        ensures some { 0 < result.0.page_bytes }
        ensures page { result.0.page_bytes ≡ self.page_size }
        ensures slots { length result.0.slots.items ≡ self.slots }
        ensures none { (K == 1) ≡ false → result.0.trails ≡ None }
        ensures settled { IsSettledState (start (frames_list N.frames) self.page_size self.slots) }
        ensures shape { N.shape ≡ record {
          slots = self.slots;
          nodes = length (frames_list N.frames);
          looks = not (K == 1);
        } }
        ensures runs { IfSome result.0.trails (λ t. EndsRuns
            (start (frames_list N.frames) self.page_size self.slots) (entries_of t)
            (machine_of result.0.page_bytes result.0.table result.0.slots.items result.0.pool)) }
        ensures ends { result.1.in_order ≡ true → HasEnded (K == 1)
            (start (frames_list N.frames) self.page_size self.slots) self.slots
            (machine_of result.0.page_bytes result.0.table result.0.slots.items result.0.pool)
            result.0.trails result.1.sessions result.1.seat.me.0 }
    {
        let Shared {
            page_bytes,
            alloc: _,
            history,
            table,
            core,
            nodes,
            slots,
            opener,
            spare,
        } = self;
        let (table, task_trail, tasks_seat) = table.into_inner().into_parts();
        let (pool, pool_trail, mut pool_seat) = core.into_inner().into_parts();
        let (sessions, mut seat) = opener.into_inner().into_parts();
        history.take_in(&mut pool_seat, tasks_seat);
        history.take_in(&mut seat, pool_seat);
        let (mut mounts, mut trails) = spare.into_inner().into_room();
        let (in_order, seat) = take_slots(&history, seat, slots, &mut mounts, &mut trails);
        let unshared = Unshared {
            page_bytes,
            slots: mounts,
            table,
            pool: OwnPool::from_parts(pool, nodes.into_frames()),
            trails: trails_in(in_order, task_trail, pool_trail, trails),
        };
        (unshared, Ended::new(history, seat, sessions, in_order))
    }
}

// The trails, where they are kept and those of the slots are in order.
fn trails_in<const K: usize>(
    in_order: bool,
    tasks: Trace<TableEntry, K>,
    pool: Trace<PoolEntry, K>,
    slots: Vec<Vec<SlotEntry>>,
) -> Option<Trails>
    ensures none { (K == 1) ≡ false → result ≡ None }
    ensures some { (K == 1) ≡ true → in_order ≡ true → is_some result ≡ true }
    ensures given { IfSome result (λ t. ((K == 1) ≡ true) × (in_order ≡ true)
        × (entries_of t ≡ trails_of tasks.entry.entries slots.items pool.entry.entries)) }
{
    if K != 1 || !in_order {
        return None;
    }
    Some(Trails {
        tasks: tasks.into_entries(),
        pool: pool.into_entries(),
        slots,
    })
}
