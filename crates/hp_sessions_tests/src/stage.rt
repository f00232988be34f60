//! Machines that tests play on, with a trace and without one.
ghost use Rattle.std.specs.Prelude.{◌≡◌, ◌≤◌, ◌==◌, ◌∷◌, [], false, not, true};
ghost use Rattle.hp_sessions_tests.specs.Machines.{AreMade, AreNamed, IsFit};

use crate::filling::filled;
use crate::following::followed;
use crate::full::{Fills, left};
use crate::gates::{Watched, Watcher};
use crate::machine::{Runs, Tested};
use crate::making::made;
use crate::over_tcp::{Holding, outlasted};
use crate::places::each_held;
use crate::rows::HeldAt;
use crate::same::same;
use crate::sources::failed;
use crate::stress::eight;
use hp_history::{Opened, Places, Shape};
use hp_model::naming::Naming;
use hp_pool::Blanks;
use hp_server::Served;
use hp_serving::Closed;
use hp_shared::Shared;
use std::alloc::Global;
use std::marker::Brand;
use std::net::{Net, TcpListener, TcpStream};
use std::process::Abort;

/// How large a machine is: the frames of each node, the bytes of a page, the slots, the places of each trail, and for how many
/// receipts each session has room.
#[derive(Clone, Copy, Drop)]
pub struct Sizes<'a> {
    pub frames: &'a [u64],
    pub page_bytes: usize,
    pub slots: usize,
    pub places: usize,
    pub room: usize,
}

/// Two nodes of four small frames each, and four slots.
pub const SMALL: Sizes<'static> = Sizes {
    frames: &[4, 4],
    page_bytes: 1024,
    slots: 4,
    places: 100,
    room: 100,
};

/// A machine, who watches its locks, and what its audit answers: it has some trails or none.
pub struct Stage<'a, M, R> {
    pub machine: M,
    pub alloc: Global,
    pub draws: &'a Watcher<'a, R>,
    pub audit: Option<bool>,
}

/// Closes the machine with its sessions, which are all, and ended in any order. Its audit is as wanted.
pub fn closed<R: Runs, M: Tested>(
    rt: &R,
    stage: Stage<'_, M, R>,
    sessions: Vec<M::Told>,
) -> Closed {
    let Stage {
        machine,
        alloc,
        draws: _,
        audit,
    } = stage;
    let mut sessions = sessions;
    sessions.sort_unstable_by_key(|one| M::number(one));
    let closed = machine.close(alloc, sessions).expect(rt, "memory");
    same!(rt; closed.audit, audit);
    closed
}

/// Does so: how many pages there are, all of which are free, and none promised.
pub fn pages_left<R: Runs, M: Tested>(
    rt: &R,
    stage: Stage<'_, M, R>,
    sessions: Vec<M::Told>,
) -> u64 {
    let counts = closed(rt, stage, sessions).counts;
    same!(rt; (counts.free, counts.rsvd), (counts.total, 0));
    counts.total
}

/// What one session left.
pub fn list_of<R: Abort, T: Drop>(rt: &R, alloc: Global, one: T) -> Vec<T> {
    let mut all = Vec::new(alloc);
    all.push(one).expect(rt, "memory");
    all
}

/// What three left.
pub fn all_three<R: Abort, T: Drop>(rt: &R, alloc: Global, one: T, two: T, three: T) -> Vec<T> {
    let mut all = list_of(rt, alloc, one);
    all.push(two).expect(rt, "memory");
    all.push(three).expect(rt, "memory");
    all
}

/// What a test does with a machine.
#[derive(Clone, Copy, Drop)]
pub enum Scene<'a> {
    Held(HeldAt),
    Served(Holding<'a>),
    Outlasted,
    Fails,
    Places,
    Filled,
    Followed,
    Made,
    Fills(Fills<'a>),
    Left,
    Eight,
}

fn play<R: Runs + Net<Stream = TcpStream, Listener = TcpListener>, M: Tested + Sync>(
    rt: &R,
    stage: Stage<'_, M, R>,
    scene: Scene<'_>,
) {
    match scene {
        Scene::Held(held) => held.play(rt, stage),
        Scene::Served(holding) => holding.play(rt, stage),
        Scene::Outlasted => outlasted(rt, stage),
        Scene::Fails => failed(rt, stage),
        Scene::Places => each_held(rt, stage),
        Scene::Filled => filled(rt, stage),
        Scene::Followed => followed(rt, stage),
        Scene::Made => made(rt, stage),
        Scene::Fills(fills) => fills.play(rt, stage),
        Scene::Left => left(rt, stage),
        Scene::Eight => eight(rt, stage),
    }
}

// What a machine is made from.
#[derive(Drop)]
struct Source<'a> {
    alloc: Global,
    sizes: Sizes<'a>,
    blanks: Blanks,
    history: Opened,
}

fn make<'a, R: Abort>(rt: &R, alloc: Global, sizes: Sizes<'a>, looks: bool) -> Source<'a>
    requires { IsFit sizes.frames.now sizes.page_bytes sizes.slots sizes.places }
    ensures sizes { result.sizes ≡ sizes.entry }
    ensures made { AreMade sizes.entry.frames.now sizes.entry.page_bytes sizes.entry.slots
        result.blanks result.history.shape looks }
{
    let blanks = Blanks::new(alloc, sizes.frames, sizes.page_bytes).expect(rt, "memory");
    let shape = Shape {
        slots: sizes.slots as u64,
        nodes: sizes.frames.len() as u64,
        looks,
    };
    let history = Opened::new(alloc, shape).expect(rt, "memory");
    Source {
        alloc,
        sizes,
        blanks,
        history,
    }
}

fn on<
    N: Naming + Places + Send + Sync,
    R: Runs + Net<Stream = TcpStream, Listener = TcpListener>,
    const K: usize,
>(rt: &R, source: Source<'_>, scene: Scene<'_>)
    requires named { let s = source.sizes in AreNamed N.Naming N.Places s.frames.now s.page_bytes
        s.slots s.places source.blanks source.history.shape (not (K == 1)) }
    requires history { source.history.table.shared.table_id ≡ N.history }
{
    let Source {
        alloc,
        sizes,
        blanks,
        history,
    } = source;
    let Sizes {
        frames,
        page_bytes,
        slots,
        places,
        room,
    } = sizes;
    let shared = Shared::<N, K>::new(
        alloc, frames, page_bytes, slots, places, blanks, history,
    ).expect(rt, "memory");
    let watcher = Watcher::new(rt);
    let gate = Watched { by: &watcher };
    let machine = Served { shared, gate, room };
    let audit = if K == 1 { Some(true) } else { None };
    let stage = Stage {
        machine,
        alloc,
        draws: &watcher,
        audit,
    };
    play(rt, stage, scene);
}

fn on_traced<
    N: Naming + Places + Send + Sync,
    R: Runs + Net<Stream = TcpStream, Listener = TcpListener>,
>(rt: &R, source: Source<'_>, scene: Scene<'_>)
    requires named { let s = source.sizes in AreNamed N.Naming N.Places s.frames.now s.page_bytes
        s.slots s.places source.blanks source.history.shape false }
    requires history { source.history.table.shared.table_id ≡ N.history }
{
    on::<N, R, 1>(rt, source, scene);
}

fn on_untraced<
    N: Naming + Places + Send + Sync,
    R: Runs + Net<Stream = TcpStream, Listener = TcpListener>,
>(rt: &R, source: Source<'_>, scene: Scene<'_>)
    requires named { let s = source.sizes in AreNamed N.Naming N.Places s.frames.now s.page_bytes
        s.slots s.places source.blanks source.history.shape true }
    requires history { source.history.table.shared.table_id ≡ N.history }
{
    on::<N, R, 0>(rt, source, scene);
}

/// Plays on a machine that keeps trails.
pub fn traced<R: Runs + Net<Stream = TcpStream, Listener = TcpListener>>(
    rt: &R,
    alloc: Global,
    sizes: Sizes<'_>,
    scene: Scene<'_>,
)
    requires { IsFit sizes.frames.now sizes.page_bytes sizes.slots sizes.places }
{
    let source = make(rt, alloc, sizes, false);
    on_traced::<Brand, R>(rt, source, scene);
}

/// Plays on one that keeps none.
pub fn untraced<R: Runs + Net<Stream = TcpStream, Listener = TcpListener>>(
    rt: &R,
    alloc: Global,
    sizes: Sizes<'_>,
    scene: Scene<'_>,
)
    requires { IsFit sizes.frames.now sizes.page_bytes sizes.slots sizes.places }
{
    let source = make(rt, alloc, sizes, true);
    on_untraced::<Brand, R>(rt, source, scene);
}

/// Plays on both.
pub fn both<R: Runs + Net<Stream = TcpStream, Listener = TcpListener>>(
    rt: &R,
    alloc: Global,
    sizes: Sizes<'_>,
    scene: Scene<'_>,
)
    requires { IsFit sizes.frames.now sizes.page_bytes sizes.slots sizes.places }
{
    traced(rt, alloc, sizes, scene);
    untraced(rt, alloc, sizes, scene);
}
