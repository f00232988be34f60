//! A session's door to the pool for faults that follow one another.
ghost use Rattle.std.specs.Prelude.{◌≡◌, ◌==◌, ◌+◌, ◌<◌, ◌≤◌, ◌∷◌, [], ℕ, List, length, refl, true, false, IfNone, IfSome};
ghost use Rattle.hp_history.specs.declared.held.Held.TheVariants.{Session, Slot as SlotPart};
ghost use Rattle.hp_history.specs.History.{IsSession, front_of};
ghost use Rattle.hp_history.specs.Sections.{free_slot};
ghost use Rattle.hp_subpool.specs.Subpool.{with_page, with_pages};
ghost use Rattle.hp_shared.specs.Runs.{HasEntered, IsPageMore, RunView as TheView, run_view};

use crate::seats::join;
use crate::taken::Taken;
use atomic_table::Badge;
use hp_history::{History, Places, Token, View};
use hp_locked::{Core, Gate, NodeLocks, Ways};
use hp_model::entry::PoolEntry;
use hp_model::naming::Naming;
use hp_model::service::Access;
use hp_model::step::Intent;
use hp_mount::RunDoor;
use hp_nodes::Page;
use hp_order::{RankedLock, Turn, hold, let_go};
use hp_permit::Claim;
use hp_subpool::Subpool;
use hp_trail::trace::Trace;
use std::marker::{Brand, Model};
use std::sync::Wait;

/// The faults of one session through one map that follow one another, where no entries are kept; the seats of the session and of the
/// slot in the history; and the claims that are not handed out yet. It can't be dropped: `into_seats` ends it.
struct Taking<'a, N: Naming + Places, const K: usize> {
    history: &'a History<N>,
    access: Access,
    intent: Intent,
    mine: Token,
    seat: Badge<View>,
    taken: Taken<N>,
}

impl<'a, N: Naming + Places, const K: usize> Model for Taking<'a, N, K> {
    ghost use Rattle.std.specs.Prelude.{◌==◌};
    ghost use Rattle.hp_shared.specs.Runs.{IsRunDoor, RunView, run_view};

    ghost Value = { RunView };

    ghost view = { λ d. run_view d.access d.intent d.seat.views d.mine.me.0 d.taken.nodes
        d.taken.is_full };

    ghost invariant = { λ d. IsRunDoor N.history N.shape.looks (K == 1) d.mine.table_id d.mine.me
        d.seat.table_id d.seat.views };
}

impl<'a, N: Naming + Places, const K: usize> Taking<'a, N, K> {
    #[inline(always)]
    fn into_seats(self) -> (Token, Badge<View>)
        requires { self.waiting ≡ [] }
        ensures named { result.0.table_id ≡ N.history }
        ensures session { result.0.me ≡ (Session self.entry.number self.entry.seats.told ∷ [], []) }
        ensures slot { result.1.table_id ≡ N.history }
        ensures trail { result.1.views
            ≡ (SlotPart self.entry.faults.slot self.entry.seats.run ∷ []) ∷ [] }
    {
        let Taking {
            history: _,
            access: _,
            intent: _,
            mine,
            seat,
            taken,
        } = self;
        taken.close();
        (mine, seat)
    }

    // The next claim that was not handed out.
    #[inline(always)]
    fn next_claim(&mut self) -> Option<Claim<N>>
        ensures one { IfSome result (λ claim. claim.amount ≡ 1) }
        ensures some { IfSome result (λ claim. self.old.waiting ≡ claim.node ∷ self.new.waiting) }
        ensures none { IfNone result (self.old.waiting ≡ []) }
        ensures same { IfNone result (self.new ≡ self.old) }
        ensures took { (d : TheView) (nodes : List ℕ) → HasEntered d nodes self.old
            → HasEntered d nodes self.new }
    {
        self.taken.next_claim()
    }

    // Looks the task up, and enters the section of its fault at the next index, behind so many that did. Whether it did: where
    // the task's home isn't told nothing is.
    #[inline(always)]
    fn step(
        &mut self,
        core: &mut Core<N, Trace<PoolEntry, K>>,
        share: &mut Subpool<N>,
        done: u64,
    ) -> bool
        requires room { self.old.is_full ≡ false }
        requires held { 0 < share.old.held }
        ensures taken { result ≡ true → IsPageMore (self.old.index + done) self.old self.new }
        ensures share { result ≡ true → share.new ≡ with_page share.old }
        ensures same { result ≡ false → self.new ≡ self.old }
        ensures unchanged { result ≡ false → share.new ≡ share.old }
    {
        let Taking {
            history,
            access,
            intent,
            mine,
            seat,
            taken,
        } = self;
        let Some(home) = history.look(mine, access.task) else {
            return false;
        };
        join(history, seat, mine);
        match core.take_page(history, mine, share, home as usize) {
            Ok((claim, _asked)) => taken.add(claim),
            Err(_full) => unreachable!(),
        }
        let told = (&*access, *intent, home, done);
        *seat = history.leave::<Brand, _>(mine, told);
        true
    }

    // The pages of these faults, the first of at most so many, in sections of their own. All are taken in this hold of the lock.
    #[inline(always)]
    fn take_all(
        &mut self,
        core: &mut Core<N, Trace<PoolEntry, K>>,
        share: &mut Subpool<N>,
        most: u64,
    )
        requires none { self.old.waiting ≡ [] }
        requires held { most ≤ share.old.held }
        ensures took { HasEntered self.old self.new.waiting self.new }
        ensures few { length self.new.waiting ≤ most }
        ensures share { share.new ≡ with_pages (length self.new.waiting) share.old }
    {
        for done in 0..most {
            if self.taken.is_full() || !self.step(core, share, done) {
                return;
            }
        }
    }
}

/// The pool and the frames behind their locks, for such faults.
///
/// The pool's lock is held once for all pages that are taken together. The page of a claim comes from under its node's lock,
/// once the pool's is free again.
pub(crate) struct Run<'a, N: Naming + Places, R: Wait, G: Gate, const K: usize> {
    rt: &'a R,
    gate: &'a G,
    core: &'a RankedLock<Core<N, Trace<PoolEntry, K>>>,
    nodes: &'a NodeLocks<N>,
    turn: Turn,
    taking: Taking<'a, N, K>,
}

impl<'a, N: Naming + Places, R: Wait, G: Gate, const K: usize> Model for Run<'a, N, R, G, K> {
    ghost use Rattle.std.specs.Prelude.{◌≡◌, ◌∷◌, []};
    ghost use Rattle.hp_shared.specs.Runs.{RunView};

    ghost Value = { RunView };

    ghost view = { λ d. d.taking };

    ghost invariant = { λ d. d.turn.held ≡ 1 ∷ [] };
}

impl<'a, N: Naming + Places, R: Wait, G: Gate, const K: usize> Run<'a, N, R, G, K> {
    /// A door through which no page was taken, for faults from an index on.
    #[inline(always)]
    pub(crate) fn new(
        ways: &Ways<'a, N, R, G, K>,
        access: &Access,
        intent: Intent,
        turn: Turn,
        mine: Token,
        seat: Badge<View>,
    ) -> Self
        requires turn { turn.held ≡ 1 ∷ [] }
        requires looks { N.shape.looks ≡ true }
        requires unkept { (K == 1) ≡ false }
        requires named { mine.table_id ≡ N.history }
        requires session { IsSession mine.me.0 }
        requires alone { mine.me.1 ≡ [] }
        requires slot { seat.table_id ≡ N.history }
        requires one { seat.views ≡ (free_slot (front_of seat.views) ∷ []) ∷ [] }
        ensures { result ≡ run_view access.now intent seat.views mine.me.0 [] false }
    {
        Run {
            rt: ways.rt,
            gate: ways.gate,
            core: ways.core,
            nodes: ways.nodes,
            turn,
            taking: Taking {
                history: ways.history,
                access: *access,
                intent,
                mine,
                seat,
                taken: Taken::new(),
            },
        }
    }

    /// The seats of the session and of the slot, once all pages were handed out.
    #[inline(always)]
    pub(crate) fn into_seats(self) -> (Token, Badge<View>, Turn)
        requires { self.waiting ≡ [] }
        ensures named { result.0.table_id ≡ N.history }
        ensures session { result.0.me ≡ (Session self.entry.number self.entry.seats.told ∷ [], []) }
        ensures slot { result.1.table_id ≡ N.history }
        ensures trail { result.1.views
            ≡ (SlotPart self.entry.faults.slot self.entry.seats.run ∷ []) ∷ [] }
        ensures turn { result.2.held ≡ 1 ∷ [] }
    {
        let Run {
            rt: _,
            gate: _,
            core: _,
            nodes: _,
            turn,
            taking,
        } = self;
        let (mine, seat) = taking.into_seats();
        (mine, seat, turn)
    }
}

impl<'a, N: Naming + Places, R: Wait, G: Gate, const K: usize> RunDoor<N> for Run<'a, N, R, G, K> {
    ghost took = { λ d nodes e. HasEntered d nodes e };

    ghost waiting = { λ d. d.waiting };

    ghost idle = { λ d. record { faults = refl; index = refl; number = refl; entered = refl } };

    fn take_pages(&mut self, share: &mut Subpool<N>, most: u64) {
        let mut value = hold(&mut self.turn, self.core, self.rt);
        let core: &mut Core<N, Trace<PoolEntry, K>> = &mut value;
        self.taking.take_all(core, share, most);
        let_go(&mut self.turn, value);
    }

    fn next_page(&mut self) -> Option<Page<N>> {
        let claim = self.taking.next_claim()?;
        Some(self.nodes.redeem(&mut self.turn, self.rt, self.gate, claim))
    }
}
