//! The map that a task may make next.
ghost use Rattle.std.specs.Prelude.{◌≡◌, ◌+◌, ◌<◌, ◌≤◌, ◌^◌, ◌&&◌, not, false, IfOk, None};
ghost use Rattle.hp_mapping.specs.Flags.{has_owner, has_unmapped, sharing_of_bits};
ghost use Rattle.hp_model.specs.declared.step.Sharing.TheVariants.{Private};
ghost use Rattle.hp_model.specs.files.File.{File, new_file};
ghost use Rattle.hp_model.specs.files.MakeMap.{reserves};
ghost use Rattle.hp_model.specs.files.Mapping.{is_shared};
ghost use Rattle.hp_lookup.specs.Asking.{entered_from, wants};
ghost use Rattle.hp_lookup.specs.Numbered.{new_mapping};

use hp_mapping::{MapFlags, Mapping};
use hp_model::step::{Reserving, Sharing};
use std::alloc::{AllocError, Global};

/// The indices that a task asks to map: so many `pages` of a file, from index `start` on, shared or private, with
/// reservations or without.
#[derive(Clone, Copy, PartialEq, Eq)]
pub struct MapRange {
    pub task: u64,
    pub start: u64,
    pub pages: u64,
    pub sharing: Sharing,
    pub reserving: Reserving,
}

impl MapRange {
    /// The first index that is entered. A private map enters none, nor does one that reserves nothing.
    pub fn entered_from(&self) -> u64
        requires { self.now.start + self.now.pages < 2 ^ 64 }
        ensures from { result
            ≡ entered_from self.now.sharing self.now.reserving self.now.start self.now.pages }
        ensures within { result ≤ self.now.start + self.now.pages }
    {
        match (self.sharing, self.reserving) {
            (Sharing::Shared, Reserving::Reserve) => self.start,
            _ => self.start + self.pages,
        }
    }

    /// The pages that the map asks for in a file that has no entry in the range. A private map asks for as many in every
    /// file.
    pub fn wanted_alone(&self) -> u64
        ensures alone { result ≡ wants self.now (new_file None) }
        ensures private { (f : File) → self.now.sharing ≡ Private → result ≡ wants self.now f }
    {
        match self.reserving {
            Reserving::Reserve => self.pages,
            Reserving::NoReserve => 0,
        }
    }

    // A private map with reservations is their owner.
    fn flags(&self) -> MapFlags
        ensures sharing { sharing_of_bits result.0 ≡ self.now.sharing }
        ensures owner { has_owner result.0
            ≡ not (is_shared self.now.sharing) && reserves self.now.reserving }
        ensures unmapped { has_unmapped result.0 ≡ false }
    {
        match (self.sharing, self.reserving) {
            (Sharing::Shared, _) => MapFlags::SHARED,
            (Sharing::Private, Reserving::Reserve) => MapFlags::OWNER,
            (Sharing::Private, Reserving::NoReserve) => MapFlags::NORESERVE,
        }
    }

    /// The map, which has no copy yet.
    // Inlined, so that it is not moved on the way.
    #[inline(always)]
    pub fn mapping(&self, alloc: Global, tag: u64, number: u64) -> Result<Mapping, AllocError>
        requires { self.now.start + self.now.pages < 2 ^ 64 }
        ensures { IfOk result (λ map. map ≡ new_mapping self.now.task number self.now.start
            self.now.pages self.now.sharing self.now.reserving) }
    {
        let end = self.start + self.pages;
        let map = Mapping::new(alloc, tag, self.task, number, self.start, end, self.flags())?;
        Ok(map)
    }
}

/// The number of a task's next map, and whether it is the task's first.
#[derive(Clone, Copy, Debug, PartialEq, Eq)]
pub struct NextMap {
    pub number: u64,
    pub is_first: bool,
}
