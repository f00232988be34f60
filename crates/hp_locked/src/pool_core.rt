//! The pool under its lock.
ghost use Rattle.std.specs.Prelude.{◌≡◌, ◌*◌, ◌≤◌, ◌∷◌, [], length, true, false, IfOk, OnErr};
ghost use Rattle.hp_history.specs.declared.held.Held.TheVariants.{Pool as PoolPart};
ghost use Rattle.hp_history.specs.History.{IsSession};
ghost use Rattle.hp_history.specs.Sections.{pool_receipt, told_more};
ghost use Rattle.hp_model.specs.threads.PoolRun.{IsPoolRun};
ghost use Rattle.hp_model.specs.pool.NodeRows.{frames_of};
ghost use Rattle.hp_model.specs.pool.Pool.{granted_at, no_pages};
ghost use Rattle.hp_model.specs.pool.Resize.{node_counts, pool_event};
ghost use Rattle.hp_model.specs.text.Writing.{IsWithinLimits};
ghost use Rattle.hp_mount_door.specs.Door.{IsReady};
ghost use Rattle.hp_pool.specs.Sums.{idle_pool};
ghost use Rattle.hp_subpool.specs.Subpool.{committed_of};
ghost use Rattle.hp_trail.specs.Keeping.{has_room};
ghost use Rattle.hp_locked.specs.Told.{IsPoolEventDone, pool_reply};
ghost use Rattle.hp_locked.specs.Views.{IsNewTrail, IsPoolTrail, IsTrailOf, core_view, frames_list};

mod giving;
mod opening;
mod taking;

use crate::noting::note_event;
use crate::pool_told::PoolTold;
use atomic_table::Badge;
use hp_history::{History, Places, Token, View};
use hp_model::answer::NodeCount;
use hp_model::entry::PoolEntry;
use hp_model::event::PoolEvent;
use hp_model::naming::Naming;
use hp_model::profile::MOST_OVERCOMMIT;
use hp_model::section::PoolAnswer;
use hp_order::Ordered;
use hp_pool::Pool;
use hp_subpool::Subpool;
use hp_trail::trail::Trail;
use std::marker::Model;

/// There was no room in the trail.
#[derive(Clone, Copy, Debug, PartialEq, Eq)]
pub struct Full {}

/// The pool with its trail.
///
/// Whenever its lock is free, its trail in the history is a run of the pool that ends in the pool's numbers. Where the trail is
/// kept, there is a place in it for each section that may yet give back: so giving back is never refused. By the pool's own
/// invariant Rsvd is the sum of all permits that are out, and the pages in use are the claims that are not in the pool, whoever
/// holds them.
pub struct Core<N: Naming + Places, T: Trail<PoolEntry>> {
    pool: Pool<N>,
    trail: T,
    seat: Badge<View>,
}

impl<N: Naming + Places, T: Trail<PoolEntry>> Model for Core<N, T> {
    ghost use Rattle.hp_history.specs.Sections.{pool_in};
    ghost use Rattle.hp_pool.specs.Sums.{idle_pool};
    ghost use Rattle.hp_locked.specs.Views.{CoreView, IsCore, IsSeated, core_view, frames_list};

    ghost Value = { CoreView };

    ghost view = { λ c. core_view c.pool (pool_in c.seat.views) (T.entries c.trail)
        (T.left c.trail) (T.extra c.trail) };

    ghost invariant = { λ c. IsCore (idle_pool (frames_list N.frames)) (T.entries c.trail)
        (T.left c.trail) (T.extra c.trail) c.pool
        × IsSeated N.history (idle_pool (frames_list N.frames)) c.seat.table_id c.seat.views
        (T.entries c.trail) c.pool };
}

impl<N: Naming + Places, T: Trail<PoolEntry>> Ordered for Core<N, T> {
    ghost rank = { 2 };

    #[inline(always)]
    fn rank() -> u64 {
        2
    }
}

impl<N: Naming + Places, T: Trail<PoolEntry>> Core<N, T> {
    /// A pool as it starts, with a trail that has nothing in it yet.
    #[tactic(auto, using(crate::proofs::Added::fresh_core))]
    pub fn new(pool: Pool<N>, trail: T, seat: Token) -> Self
        requires start { pool ≡ idle_pool (frames_list N.frames) }
        requires ready { IsReady pool }
        requires fresh { IsNewTrail (T.entries trail) }
        requires enough { 2 * frames_of (idle_pool (frames_list N.frames)).nodes.rows
            ≤ T.extra trail }
        requires named { seat.table_id ≡ N.history }
        requires seat { seat.me ≡ (PoolPart [] ∷ [], []) }
        ensures { result ≡ core_view pool [] (T.entries trail) (T.left trail) (T.extra trail) }
    {
        pool.law();
        Core {
            pool,
            trail,
            seat: seat.into_badge(),
        }
    }

    /// The pool, its trail and its seat in the history.
    pub fn into_parts(self) -> (Pool<N>, T, Token)
        ensures pool { result.0 ≡ self.pool }
        ensures entries { T.entries result.1 ≡ self.entries }
        ensures run { IsPoolTrail (idle_pool (frames_list N.frames)) self.entries self.pool }
        ensures ready { IsReady self.pool }
        ensures named { result.2.table_id ≡ N.history }
        ensures seat { result.2.me ≡ (PoolPart self.run ∷ [], []) }
        ensures history { IsPoolRun (idle_pool (frames_list N.frames)) self.run self.pool }
        ensures kept { IsTrailOf self.run self.entries }
    {
        let Core { pool, trail, seat } = self;
        (pool, trail, seat.into_seat())
    }

    /// An event of the pool alone: its answer, and its place where entries are kept. The session that asks is told of it in the
    /// history. At `Err` the trail is full, and nothing changed.
    #[inline(always)]
    pub fn event(
        &mut self,
        history: &History<N>,
        mine: &mut Token,
        event: PoolEvent,
    ) -> Result<(PoolTold, u64), Full>
        requires named { mine.old.table_id ≡ N.history }
        requires session { IsSession mine.old.me.0 }
        requires alone { mine.old.me.1 ≡ [] }
        ensures done { IfOk result (λ r. IsPoolEventDone self.old self.new event (pool_reply r.0)) }
        ensures place { IfOk result (λ r. T.keeps ≡ true → r.1 ≡ length self.old.run) }
        ensures told { IfOk result (λ r. mine.new.me ≡ (
          told_more mine.old.me.0
              (pool_receipt event (pool_reply r.0) (length self.old.run)) ∷ [],
          [],
        )) }
        ensures limits { IfOk result (λ r. IsWithinLimits (pool_reply r.0)) }
        ensures full { OnErr result (has_room false self.old.left self.old.extra ≡ false) }
        ensures keeps { OnErr result (T.keeps ≡ true) }
        ensures same { OnErr result (self.new ≡ self.old) }
        ensures untold { OnErr result (mine.new.me ≡ mine.old.me) }
        ensures named { mine.new.table_id ≡ N.history }
    {
        let Core { pool, trail, seat } = self;
        if !trail.has_room(false) {
            return Err(Full {});
        }
        let told = answered(pool, event);
        pool.law();
        let place = note_event(trail, seat, history, mine, event, told);
        Ok((told, place))
    }
}

// What the pool answers to an event.
#[inline(always)]
fn answered<N: Naming>(pool: &mut Pool<N>, event: PoolEvent) -> PoolTold
    requires { IsReady pool.old }
    ensures event { pool_event pool.old event ≡ (pool_reply result, pool.new) }
    ensures ready { IsReady pool.new }
{
    match event {
        PoolEvent::Nr { pages } => PoolTold::Number(pool.set_nr(pages)),
        PoolEvent::Overcommit { pages } => {
            if pages > MOST_OVERCOMMIT {
                return PoolTold::TooMuch;
            }
            pool.set_overcommit(pages);
            PoolTold::Done
        }
        PoolEvent::Meminfo => PoolTold::Numbers(pool.counts()),
        PoolEvent::Nodes => PoolTold::PerNode {
            nodes: pool.len() as u64,
            rows: node_rows(pool),
        },
    }
}

// A row for each node, and rows of zeros past the last.
fn node_rows<N: Naming>(pool: &Pool<N>) -> [NodeCount; 4]
    requires { length pool.now.nodes.rows ≤ 4 }
    ensures { result ≡ node_counts pool.now }
{
    let none = NodeCount {
        total: 0,
        free: 0,
        surp: 0,
    };
    let mut rows = [none; 4];
    for node in 0..pool.len() {
        rows[node] = pool.node(node);
    }
    rows
}

// What the pool has committed to the share.
fn committed<N: Naming>(share: &Subpool<N>) -> u64
    ensures { result ≡ committed_of share.now }
{
    share.used().max(share.min())
}

fn granted(node: u64) -> PoolAnswer
    ensures { result ≡ granted_at node }
{
    PoolAnswer {
        granted: true,
        node,
        nr: 0,
        pages: [0; 4],
    }
}

fn refused() -> PoolAnswer
    ensures { result ≡ no_pages }
{
    PoolAnswer {
        granted: false,
        node: 0,
        nr: 0,
        pages: [0; 4],
    }
}
