//! What holds of the machine, whatever its steps. Each law is the contract of a function that does nothing.
#![tactic(auto)]

ghost use Rattle.hp_laws.specs.Answers.{NamesAreListed};
ghost use Rattle.hp_laws.specs.Closing.{PoolPlaces, ReceiptsAreFew, SlotPlaces, TablePlaces};
ghost use Rattle.hp_laws.specs.Laws.{CountsAreSums, FootprintIsKept, JoinedLaw, LimitsHold, OwnerWrites, PoolIsTied, PromisesAreKept, RefusalsChangeNothing, ReservedAccess, RunsAreSettled, SlotsAreBalanced, SlotsStaySound, StartIsSettled, WhatFollows};
ghost use Rattle.hp_laws.specs.Runs.{RunsArePromised};

/// An access at an index that is reserved to its map is never refused for want of a huge page, whatever the pool answers.
pub fn reserved_accesses_get_pages()
    ensures { ReservedAccess }
{}

/// An owner's write into its copy is never refused for want of a huge page, whatever the pool answers and however many other maps hold the copy.
pub fn owners_write()
    ensures { OwnerWrites }
{}

/// Each event on a slot moves the slot's counts as its section moves the pool's numbers, whatever the pool answers.
pub fn slots_are_balanced()
    ensures { SlotsAreBalanced }
{}

/// Each event on a slot leaves its copies and maps sound, with whatever fresh stamp: copies with one stamp are one copy, in one file at
/// one index, with one owner at most; an owner's stand where it has consumed; copies lie below the file's length; a task's number is of one map.
pub fn slots_stay_sound()
    ensures { SlotsStaySound }
{}

/// After every event the sums over files and maps are the numbers that it left in the pool, and these are settled.
pub fn pool_is_tied()
    ensures { PoolIsTied }
{}

/// The machine starts settled.
pub fn start_is_settled()
    ensures { StartIsSettled }
{}

/// A settled machine stays settled through every run of events, and of steps.
pub fn runs_are_settled()
    ensures { RunsAreSettled }
{}

/// In a settled machine Total, Free, Rsvd and Surp are those of the sums over files and maps and of the nodes' rows, and Free covers Rsvd.
pub fn counts_are_sums()
    ensures { CountsAreSums }
{}

/// An event that raises what a mount uses ends within the mount's limit.
pub fn limits_hold()
    ensures { LimitsHold }
{}

/// A refused event leaves everything as it was.
pub fn refusals_change_nothing()
    ensures { RefusalsChangeNothing }
{}

/// Each step of a settled machine is as promised: eight things that people rely on, of which the footprint is one.
pub fn promises_are_kept()
    ensures { PromisesAreKept }
{}

/// Each step of a settled machine changes its own part of it, told state by state, and all else is equal, and in its order: page size, frames, tasks,
/// slots, files, maps, pages and bytes. A refused step changes nothing, but for a mount after its grant and a fork onto maps of no task.
pub fn footprint_is_kept()
    ensures { FootprintIsKept }
{}

/// What follows from that: other slots stay, a mount stays, a name keeps its file and a number its map, each shows what it showed but for what the
/// step makes of it, an answered access has its page, what ends is gone, and no name or number stands twice.
pub fn what_follows()
    ensures { WhatFollows }
{}

/// In every run of events of a settled machine, as the one run of all sessions is: after each event the counts are sums and each mount's
/// minimum stays committed; no event takes a mount past its limit; each load and each read shows what its map or file has just then.
pub fn runs_are_promised()
    ensures { RunsArePromised }
{}

/// A list that joins trails which are runs of the table, the slots and the pool is a run of the
/// machine, with the recorded replies, and ends where the trails end.
pub fn trails_join()
    ensures { JoinedLaw }
{}

/// In the table, as many places as there may be tasks are enough for the removals of tasks that may yet come, whatever else is done.
pub fn table_places_are_enough()
    ensures { TablePlaces }
{}

/// In a slot, as many places as there may be tasks are enough for the exits of tasks with maps that may yet come.
pub fn slot_places_are_enough()
    ensures { SlotPlaces }
{}

/// In the pool, twice as many places as there are frames are enough for the sections that only give back. No section
/// and no event changes how many frames there are.
pub fn pool_places_are_enough()
    ensures { PoolPlaces }
{}

/// A step is told by no more receipts than a session asks room for before it.
pub fn receipts_are_few()
    ensures { ReceiptsAreFew }
{}

/// Only the event that asks for the names of files answers a list of names, whatever the pool answers.
pub fn names_are_listed()
    ensures { NamesAreListed }
{}
