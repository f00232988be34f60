//! A session's door to the pool under its lock.
ghost use Rattle.std.specs.Prelude.{◌≡◌, ◌∷◌, ◌<◌, ◌==◌, Bool, Err, IfOk, List, None, Ok, OnErr, Option, Some, is_some, true, []};
ghost use Rattle.hp_model.specs.declared.refusal.Refusal.TheVariants.{TraceFull};
ghost use Rattle.hp_history.specs.declared.held.Held.{Held};
ghost use Rattle.hp_history.specs.Sections.{IsEntered, IsFree};
ghost use Rattle.hp_model.specs.declared.entry.Asked.{Asked as AskedValue};
ghost use Rattle.hp_model.specs.declared.section.PoolAnswer.{PoolAnswer};
ghost use Rattle.hp_model.specs.declared.section.Section.{Section};
ghost use Rattle.hp_locked.specs.Views.{HasAsked};

use crate::gate::Gate;
use crate::nodes::NodeLocks;
use crate::noted::Notes;
use crate::pool_core::{Core, Full};
use crate::ways::Ways;
use hp_history::{History, Places, Token};
use hp_model::entry::{Asked, PoolEntry};
use hp_model::limits::Limits;
use hp_model::naming::Naming;
use hp_model::refusal::Refusal;
use hp_mount_door::PoolDoor;
use hp_nodes::Page;
use hp_order::{RankedLock, Turn, hold, let_go};
use hp_store::{PageBatch, PageStore};
use hp_subpool::Subpool;
use hp_trail::trace::Trace;
use std::marker::Model;
use std::sync::Wait;

/// The pool and the frames behind their locks, for one event of a slot; the seat that has its slot and its session in the
/// history; whether it entered a section of the pool, and where entries are kept which.
///
/// Each call holds the pool's lock once, for its section. The page of a claim comes from under its node's lock, once the
/// pool's is free again; pages that go back are given to their nodes before it is taken. So no two of these are held at once.
#[derive(Drop)]
pub struct Door<'a, N: Naming + Places, R: Wait, G: Gate, S: Notes, const K: usize> {
    rt: &'a R,
    gate: &'a G,
    core: &'a RankedLock<Core<N, Trace<PoolEntry, K>>>,
    nodes: &'a NodeLocks<N>,
    history: &'a History<N>,
    turn: Turn,
    mine: Token,
    noted: S,
}

impl<'a, N: Naming + Places, R: Wait, G: Gate, S: Notes, const K: usize> Model
    for Door<'a, N, R, G, S, K> {
    ghost use Rattle.std.specs.Prelude.{◌≡◌, ◌∷◌, [], ◌==◌};
    ghost use Rattle.hp_history.specs.Sections.{asked_in};
    ghost use Rattle.hp_locked.specs.Doors.{IsDoor};
    ghost use Rattle.hp_locked.specs.Views.{DoorView};

    ghost Value = { DoorView };

    ghost view = { λ d. record { asked = asked_in d.mine.me.0; mine = d.mine.me.0 } };

    ghost invariant = { λ d. IsDoor N.history (K == 1) S.keeps d.mine.table_id d.mine.me
        (record { is_entered = S.is_entered d.noted; section = S.section d.noted })
        × (d.turn.held ≡ 1 ∷ []) };
}

impl<'a, N: Naming + Places, R: Wait, G: Gate, S: Notes, const K: usize> Door<'a, N, R, G, S, K> {
    /// A door that was not used. Where entries are kept, it notes which section is entered.
    #[inline(always)]
    pub fn new(ways: &Ways<'a, N, R, G, K>, turn: Turn, mine: Token) -> Self
        requires turn { turn.held ≡ 1 ∷ [] }
        requires named { mine.table_id ≡ N.history }
        requires free { IsFree mine.me.0 }
        requires alone { mine.me.1 ≡ [] }
        requires fits { (K == 1) ≡ true → S.keeps ≡ true }
        ensures { result ≡ record { asked = None; mine = mine.me.0 } }
    {
        Door {
            rt: ways.rt,
            gate: ways.gate,
            core: ways.core,
            nodes: ways.nodes,
            history: ways.history,
            turn,
            mine,
            noted: S::new(),
        }
    }

    /// The seat that has the slot and the session.
    #[inline(always)]
    pub fn into_mine(self) -> (Token, Turn)
        ensures named { result.0.table_id ≡ N.history }
        ensures mine { result.0.me ≡ (self.entry.mine, []) }
        ensures turn { result.1.held ≡ 1 ∷ [] }
    {
        let Door { turn, mine, .. } = self;
        (mine, turn)
    }

    /// Whether the pool was entered.
    #[inline(always)]
    pub fn is_entered(&self) -> bool
        ensures { result ≡ is_some self.now.asked }
    {
        self.noted.is_entered()
    }

    /// The section that was entered, where entries are kept.
    pub fn asked_section(&self) -> Option<Asked>
        ensures { (K == 1) ≡ true → result ≡ self.now.asked }
    {
        self.noted.section()
    }
}

impl<'a, N: Naming + Places, R: Wait, G: Gate, S: Notes, const K: usize> PoolDoor<N>
    for Door<'a, N, R, G, S, K> {
    ghost is_ready = { λ d. d.asked ≡ None };

    ghost took = { λ d s a e. HasAsked e.asked s a × IsEntered (K == 1) d.mine e.asked e.mine };

    ghost is_full = { λ d. (d.asked ≡ None) × ((K == 1) ≡ true) };

    ghost is_left = { λ d. Unit {0} };

    ghost stays = { λ d ready. tt };

    fn get(&mut self, share: &mut Subpool<N>, home: usize, k: u64) -> Result<(), Refusal> {
        let mut core = hold(&mut self.turn, self.core, self.rt);
        let got = core.get(self.history, &mut self.mine, share, home, k);
        let_go(&mut self.turn, core);
        match got {
            Err(_full) => Err(Refusal::TraceFull),
            Ok(None) => Ok(()),
            Ok(Some(asked)) => {
                self.noted.note(Some(asked));
                if asked.answer.granted {
                    Ok(())
                } else {
                    Err(Refusal::NoPages)
                }
            }
        }
    }

    fn get_page(&mut self, share: &mut Subpool<N>, home: usize) -> Result<Page<N>, Refusal> {
        let mut core = hold(&mut self.turn, self.core, self.rt);
        let got = core.get_page(self.history, &mut self.mine, share, home);
        let_go(&mut self.turn, core);
        let Ok((claim, asked)) = got else {
            return Err(Refusal::TraceFull);
        };
        self.noted.note(Some(asked));
        match claim {
            Some(claim) => Ok(self.nodes.redeem(&mut self.turn, self.rt, self.gate, claim)),
            None => Err(Refusal::NoPages),
        }
    }

    fn take_page(&mut self, share: &mut Subpool<N>, home: usize) -> Result<Page<N>, Refusal> {
        let mut core = hold(&mut self.turn, self.core, self.rt);
        let got = core.take_page(self.history, &mut self.mine, share, home);
        let_go(&mut self.turn, core);
        let Ok((claim, asked)) = got else {
            return Err(Refusal::TraceFull);
        };
        self.noted.note(Some(asked));
        Ok(self.nodes.redeem(&mut self.turn, self.rt, self.gate, claim))
    }

    fn fill(
        &mut self,
        share: &mut Subpool<N>,
        k: u64,
        count: u64,
        batch: &mut PageBatch<N>,
    ) -> Result<(), Refusal> {
        let mut core = hold(&mut self.turn, self.core, self.rt);
        let got = core.fill(self.history, &mut self.mine, share, k, count);
        let_go(&mut self.turn, core);
        let Ok((parcel, asked)) = got else {
            return Err(Refusal::TraceFull);
        };
        self.noted.note(Some(asked));
        let Some(parcel) = parcel else {
            return Err(Refusal::NoPages);
        };
        self.nodes
            .add_pages(&mut self.turn, self.rt, self.gate, parcel, batch);
        Ok(())
    }

    fn put(&mut self, share: &mut Subpool<N>, going: &mut PageStore<N>, reserves: u64) {
        let parcel = self.nodes.gather(&mut self.turn, self.rt, self.gate, going);
        let mut value = hold(&mut self.turn, self.core, self.rt);
        let core: &mut Core<N, Trace<PoolEntry, K>> = &mut value;
        let asked = core.put(self.history, &mut self.mine, share, parcel, reserves);
        let_go(&mut self.turn, value);
        self.noted.note(asked);
    }

    fn open(&mut self, page_bytes: u64, options: &[u8]) -> Result<(Subpool<N>, Limits), Refusal> {
        let mut core = hold(&mut self.turn, self.core, self.rt);
        let opened = core.open(self.history, &mut self.mine, page_bytes, options);
        let_go(&mut self.turn, core);
        match opened {
            Err(_full) => Err(Refusal::TraceFull),
            Ok((share, asked)) => {
                self.noted.note(Some(asked));
                share
            }
        }
    }

    fn limits(
        &mut self,
        share: &mut Subpool<N>,
        page_bytes: u64,
        options: &[u8],
    ) -> Result<Option<u64>, Refusal> {
        let mut core = hold(&mut self.turn, self.core, self.rt);
        let set = core.limits(self.history, &mut self.mine, share, page_bytes, options);
        let_go(&mut self.turn, core);
        match set {
            Err(_full) => Err(Refusal::TraceFull),
            Ok((files, asked)) => {
                self.noted.note(Some(asked));
                files
            }
        }
    }

    fn empty(&mut self, share: &mut Subpool<N>, going: &mut PageStore<N>) {
        let parcel = self.nodes.gather(&mut self.turn, self.rt, self.gate, going);
        let mut value = hold(&mut self.turn, self.core, self.rt);
        let core: &mut Core<N, Trace<PoolEntry, K>> = &mut value;
        let asked = core.empty(self.history, &mut self.mine, share, parcel);
        let_go(&mut self.turn, value);
        self.noted.note(asked);
    }
}

/// A door that tells the section that was entered through it.
pub trait SessionDoor<N: Naming>: PoolDoor<N> {
    ghost asked: { Self → Option AskedValue };

    // what the seat has of the history
    ghost mine: { Self → List Held };

    // whether trails are kept
    ghost keeps: { Bool };

    /// The section that was entered, where trails are kept.
    fn asked(&self) -> Option<Asked>
        ensures { keeps ≡ true → result ≡ asked self.now };

    // a door that is ready was not used
    ghost begins: { (d : Self) → Self.PoolDoor.is_ready d → asked d ≡ None };

    // its seat is then busy with the section
    ghost tells: { (d : Self) (s : Section) (a : PoolAnswer) (e : Self) →
        Self.PoolDoor.took d s a e
        → HasAsked (asked e) s a × IsEntered keeps (mine d) (asked e) (mine e) };
}

impl<'a, N: Naming + Places, R: Wait, G: Gate, S: Notes, const K: usize> SessionDoor<N>
    for Door<'a, N, R, G, S, K> {
    ghost asked = { λ d. d.asked };

    ghost mine = { λ d. d.mine };

    ghost keeps = { K == 1 };

    ghost begins = { λ d ready. ready };

    ghost tells = { λ d s a e took. took };

    fn asked(&self) -> Option<Asked> {
        self.asked_section()
    }
}
