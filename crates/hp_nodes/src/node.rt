//! One node: its row.
ghost use Rattle.std.specs.Prelude.{◌≡◌, ◌+◌, ◌-◌, ◌<◌, ◌≤◌};
ghost use Rattle.hp_model.specs.pool.NodeRows.{has, used, take_row, IsRow};
ghost use Rattle.hp_model.specs.Profile.{most_frames};
ghost use Rattle.hp_nodes.specs.Moves.{amount, take_by, put_by, grow_by, shrink_by, add_surplus_by, give_back_by, promote_by, demote_by};

use hp_model::node::{Kind, NodeRow};
use std::marker::Model;

/// The numbers of a node. Contracts see the row.
#[derive(Drop)]
pub struct Node {
    row: NodeRow,
    // so that no two rows share a cache line: each session writes that of its own home
    apart: [u64; 12],
}

impl Model for Node {
    ghost use Rattle.hp_model.specs.declared.node.NodeRow.{NodeRow};
    ghost use Rattle.hp_model.specs.pool.NodeRows.{IsRow};

    ghost Value = { NodeRow };

    ghost view = { λ n. n.row };

    ghost invariant = { λ n. IsRow n.row };
}

impl Node {
    /// All frames are idle.
    pub fn new(frames: u64) -> Self
        requires { frames ≤ most_frames }
        ensures { result ≡ record { frames = frames; total = 0; free = 0; surp = 0 } }
    {
        Node {
            row: NodeRow {
                frames,
                total: 0,
                free: 0,
                surp: 0,
            },
            apart: [0; 12],
        }
    }

    pub fn row(&self) -> NodeRow
        ensures row { result ≡ self.now }
        ensures sound { IsRow self.now }
    {
        self.row
    }

    /// How many of a kind the node has.
    pub fn amount(&self, kind: Kind) -> u64
        ensures { result ≡ amount kind self.now }
    {
        match kind {
            Kind::Free => self.row.free,
            Kind::Idle => self.row.frames - self.row.total,
            Kind::Surplus => self.row.surp,
            Kind::Persistent => self.row.total - self.row.surp,
            Kind::FreeSurplus => self.row.free.min(self.row.surp),
        }
    }

    pub fn has(&self, kind: Kind) -> bool
        ensures { result ≡ has kind self.now }
    {
        self.amount(kind) > 0
    }

    /// A free page is in use now.
    pub fn take(&mut self)
        requires { 0 < self.old.free }
        ensures row { self.new ≡ take_row self.old }
        ensures sound { IsRow self.new }
    {
        self.row.free -= 1;
    }

    /// So many free pages are in use now.
    pub fn take_many(&mut self, count: u64)
        requires { count ≤ self.old.free }
        ensures row { self.new ≡ take_by count self.old }
        ensures sound { IsRow self.new }
    {
        self.row.free -= count;
    }

    /// So many pages in use are free now.
    pub fn put(&mut self, count: u64)
        requires { count ≤ used self.old }
        ensures row { self.new ≡ put_by count self.old }
        ensures sound { IsRow self.new }
    {
        self.row.free += count;
    }

    pub fn grow(&mut self, count: u64)
        requires { count ≤ amount Kind.Idle self.old }
        ensures row { self.new ≡ grow_by count self.old }
        ensures sound { IsRow self.new }
    {
        self.row.total += count;
        self.row.free += count;
    }

    pub fn shrink(&mut self, count: u64)
        requires free { count ≤ self.old.free }
        requires no_surplus { self.old.surp ≡ 0 }
        ensures row { self.new ≡ shrink_by count self.old }
        ensures sound { IsRow self.new }
    {
        self.row.total -= count;
        self.row.free -= count;
    }

    pub fn add_surplus(&mut self, count: u64)
        requires { count ≤ amount Kind.Idle self.old }
        ensures row { self.new ≡ add_surplus_by count self.old }
        ensures sound { IsRow self.new }
    {
        self.row.total += count;
        self.row.free += count;
        self.row.surp += count;
    }

    pub fn give_back(&mut self, count: u64)
        requires { count ≤ amount Kind.FreeSurplus self.old }
        ensures row { self.new ≡ give_back_by count self.old }
        ensures sound { IsRow self.new }
    {
        self.row.total -= count;
        self.row.free -= count;
        self.row.surp -= count;
    }

    pub fn promote(&mut self, count: u64)
        requires { count ≤ self.old.surp }
        ensures row { self.new ≡ promote_by count self.old }
        ensures sound { IsRow self.new }
    {
        self.row.surp -= count;
    }

    pub fn demote(&mut self, count: u64)
        requires { count ≤ amount Kind.Persistent self.old }
        ensures row { self.new ≡ demote_by count self.old }
        ensures sound { IsRow self.new }
    {
        self.row.surp += count;
    }
}
