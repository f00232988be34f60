//! Loads, stores and faults that wait, so that several are done together.
ghost use Rattle.std.specs.Prelude.{◌≡◌, ◌≤◌, [], true, false, length, take, IfOk};
ghost use Rattle.hp_model.specs.Profile.{most_bytes};
ghost use Rattle.hp_model.specs.beside.Accesses.{bytes_reply, done_reply, store_step};
ghost use Rattle.hp_model.specs.beside.Queue.{access_step, doing_step, is_load};
ghost use Rattle.hp_model.specs.beside.Told.{told_reply};
ghost use Rattle.hp_model.specs.text.Writing.{IsWithinLimits};

use crate::refusal::Refusal;
use crate::service::Access;
use crate::step::Intent;
use crate::told::Told;
use std::marker::Model;

/// The most bytes that a store has which waits.
pub const QUEUED_BYTES: usize = 512;

/// What is done at the place of an access.
pub enum Doing<'a> {
    Load { count: u64 },
    Store { bytes: &'a [u8] },
    Fault { intent: Intent },
}

/// What is wanted at the place of an access: so many bytes of a load, the bytes of a store, which stand elsewhere, or a fault.
#[derive(Clone, Copy)]
pub enum Wanted {
    Load(u64),
    Store,
    Fault(Intent),
}

/// A load, a store or a fault that waits, and what it was answered, once it is done.
#[derive(Drop)]
pub struct Queued {
    access: Access,
    wanted: Wanted,
    // the bytes to be stored, or those that were loaded, are so many in front
    len: usize,
    bytes: [u8; QUEUED_BYTES],
    refused: Option<Refusal>,
}

impl Model for Queued {
    ghost use Rattle.std.specs.Prelude.{◌≡◌, ◌≤◌, true, take};
    ghost use Rattle.hp_model.specs.beside.Queue.{QueuedView, access_step, noted_reply, wants_bytes};
    ghost use Rattle.hp_model.specs.Profile.{most_bytes};

    ghost Value = { QueuedView };

    ghost view = { λ q. record {
      access = q.access;
      step = access_step q.access q.wanted (take q.len q.bytes);
      reply = noted_reply q.refused q.wanted (take q.len q.bytes);
    } };

    ghost invariant = { λ q. (q.len ≤ 512) × (wants_bytes q.wanted ≡ true → q.len ≤ most_bytes) };
}

// Puts bytes in front, and says how many they are.
#[inline(always)]
fn put(room: &mut [u8; QUEUED_BYTES], bytes: &[u8]) -> usize
    requires { length bytes.now ≤ 512 }
    ensures count { result ≡ length bytes.now }
    ensures front { take result room.new ≡ bytes.now }
{
    room[..bytes.len()].copy_from_slice(bytes);
    bytes.len()
}

impl Queued {
    /// A load of no bytes.
    pub fn new() -> Queued {
        let access = Access {
            task: 0,
            slot: 0,
            map: 0,
            index: 0,
            offset: 0,
        };
        Queued {
            access,
            wanted: Wanted::Load(0),
            len: 0,
            bytes: [0; QUEUED_BYTES],
            refused: None,
        }
    }

    /// A load or a fault takes this one's place, or a store of no bytes.
    #[inline(always)]
    pub fn set(&mut self, access: Access, wanted: Wanted)
        ensures step { self.new.step ≡ access_step access wanted [] }
        ensures access { self.new.access ≡ access }
    {
        self.access = access;
        self.wanted = wanted;
        self.len = 0;
    }

    /// A store of these bytes takes this one's place.
    #[inline(always)]
    pub fn set_store(&mut self, access: Access, bytes: &[u8])
        requires { length bytes.now ≤ 512 }
        ensures step { self.new.step ≡ store_step access bytes.now }
        ensures access { self.new.access ≡ access }
    {
        self.access = access;
        self.wanted = Wanted::Store;
        self.len = put(&mut self.bytes, bytes);
    }

    /// Where it begins.
    #[inline(always)]
    pub fn access(&self) -> &Access
        ensures { result.now ≡ self.now.access }
    {
        &self.access
    }

    /// What is to be done.
    #[inline(always)]
    pub fn doing(&self) -> Doing<'_>
        ensures { doing_step self.now.access result ≡ self.now.step }
    {
        match self.wanted {
            Wanted::Load(count) => Doing::Load { count },
            Wanted::Store => Doing::Store {
                bytes: &self.bytes[..self.len],
            },
            Wanted::Fault(intent) => Doing::Fault { intent },
        }
    }

    /// Notes what the load was answered.
    #[inline(always)]
    pub fn answer_load(&mut self, loaded: Result<&[u8], Refusal>)
        requires load { is_load self.old.step ≡ true }
        requires few { IfOk loaded (λ bytes. length bytes.now ≤ most_bytes) }
        ensures step { self.new.step ≡ self.old.step }
        ensures reply { self.new.reply ≡ bytes_reply loaded.entry }
        ensures access { self.new.access ≡ self.old.access }
    {
        match loaded {
            Ok(bytes) => {
                self.refused = None;
                self.len = put(&mut self.bytes, bytes);
            }
            Err(refusal) => self.refused = Some(refusal),
        }
    }

    /// Notes what the store or the fault was answered.
    #[inline(always)]
    pub fn answer_done(&mut self, done: Result<(), Refusal>)
        requires done { is_load self.old.step ≡ false }
        ensures step { self.new.step ≡ self.old.step }
        ensures reply { self.new.reply ≡ done_reply done }
        ensures access { self.new.access ≡ self.old.access }
    {
        self.refused = done.err();
    }

    /// What was answered.
    #[inline(always)]
    pub fn reply(&self) -> Result<Told<'_>, Refusal>
        ensures reply { told_reply result ≡ self.now.reply }
        ensures limits { IsWithinLimits (told_reply result) }
    {
        if let Some(refusal) = self.refused {
            return Err(refusal);
        }
        match self.wanted {
            Wanted::Load(_count) => Ok(Told::Bytes(&self.bytes[..self.len])),
            Wanted::Store | Wanted::Fault(_) => Ok(Told::Done),
        }
    }
}
