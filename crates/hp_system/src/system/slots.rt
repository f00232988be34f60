//! Events on slots.
ghost use Rattle.std.specs.Prelude.{◌≡◌, ◌≢◌, ◌<◌, ◌≤◌, ◌∷◌, [], length, true, false, Err, ℕ};
ghost use Rattle.hp_model.specs.machine.Event.{has_maps_of};
ghost use Rattle.std.specs.List.{range_with_len};
ghost use Rattle.hp_model.specs.declared.refusal.Refusal.TheVariants as Refusal;
ghost use Rattle.hp_model.specs.machine.State.{slot_at};
ghost use Rattle.hp_model.specs.beside.Told.{told_reply};
ghost use Rattle.hp_model.specs.text.Writing.{IsWithinLimits};
ghost use Rattle.hp_model.specs.Profile.{most_bytes};
ghost use Rattle.hp_events.specs.Event.{is_of_maps, is_usage};
ghost use Rattle.hp_events.specs.Memory.{asks_memory};
ghost use Rattle.hp_system.specs.Event.{AreExited, AreForked, DoesOnSlot, IsForkedOn, mapped_slots};
ghost use Rattle.hp_model.specs.machine.Ready.{IsReadyMachine};

use super::System;
use hp_events::LentEvent;
use hp_model::naming::Naming;
use hp_model::refusal::Refusal;
use hp_model::told::Told;
use hp_slot::{ask, fork, has_maps, leave};

impl<N: Naming> System<N> {
    // An event of the slot of that number. Refused as NoSuchSlot where there is no such slot, and else as the slot refuses it;
    // then nothing changes. The reply is put in its place, and bytes in the front of the room.
    #[inline(always)]
    pub(crate) fn on_slot<'a>(
        &mut self,
        slot: u64,
        event: &LentEvent<'_>,
        room: &'a mut [u8],
        reply: &mut Result<Told<'a>, Refusal>,
    )
        requires ready { IsReadyMachine self.old }
        requires room { most_bytes ≤ length room.old }
        requires plain { is_of_maps event.now ≡ false }
        ensures done { DoesOnSlot self.old.state slot event.now
            (told_reply reply.new) self.new.state }
        ensures memory { asks_memory (slot_at self.old.state slot) event.now ≡ false
            → told_reply reply.new ≢ Err Refusal.OutOfMemory }
        ensures limits { is_usage event.now ≡ true → IsWithinLimits (told_reply reply.new) }
        ensures size { self.new.state.page_size ≡ self.old.state.page_size }
        ensures ready { IsReadyMachine self.new }
    {
        let at = slot as usize;
        if at >= self.slots.len() {
            *reply = Err(Refusal::NoSuchSlot);
            return;
        }
        ask(
            &mut self.slots[at],
            slot,
            &mut self.pool,
            self.alloc,
            self.page_bytes as u64,
            event,
            room,
            reply,
        );
    }

    // A task's maps on a slot go, if it has any there.
    fn exit_slot(&mut self, at: usize, task: u64)
        requires ready { IsReadyMachine self.old }
        requires within { at < length self.old.state.slots }
        ensures done { AreExited self.old.state (at ∷ []) task self.new.state }
        ensures others { (k : ℕ) → k ≢ at → slot_at self.new.state k ≡ slot_at self.old.state k }
        ensures slots { length self.new.state.slots ≡ length self.old.state.slots }
        ensures size { self.new.state.page_size ≡ self.old.state.page_size }
        ensures ready { IsReadyMachine self.new }
    {
        let slot = &mut self.slots[at];
        if has_maps(slot, task) {
            leave(slot, &mut self.pool, task);
        }
    }

    // A task's maps on all slots go, slot after slot.
    pub(crate) fn exit_slots(&mut self, task: u64)
        requires ready { IsReadyMachine self.old }
        ensures done { AreExited self.old.state (range_with_len 0 (length self.old.state.slots))
            task
            self.new.state }
        ensures size { self.new.state.page_size ≡ self.old.state.page_size }
        ensures ready { IsReadyMachine self.new }
    {
        for at in 0..self.slots.len() {
            self.exit_slot(at, task);
        }
    }

    // Whether a task has a map on a slot.
    fn has_maps(&self, at: usize, task: u64) -> bool
        requires { at < length self.now.state.slots }
        ensures { result ≡ has_maps_of task (slot_at self.now.state at) }
    {
        has_maps(&self.slots[at], task)
    }

    // Gives a child the maps that its parent has on a slot. Refused as TooMany or OutOfMemory, and then nothing changes.
    fn fork_slot(&mut self, at: usize, parent: u64, child: u64) -> Result<(), Refusal>
        requires ready { IsReadyMachine self.old }
        requires within { at < length self.old.state.slots }
        requires apart { parent ≢ child }
        ensures done { IsForkedOn self.old.state at parent child result self.new.state }
        ensures slots { length self.new.state.slots ≡ length self.old.state.slots }
        ensures size { self.new.state.page_size ≡ self.old.state.page_size }
        ensures ready { IsReadyMachine self.new }
    {
        let slot = &mut self.slots[at];
        if !has_maps(slot, parent) {
            return Ok(());
        }
        fork(slot, &mut self.pool, parent, child)
    }

    // The maps of a child go again, on the slots below `count` where its parent has maps.
    fn undo_fork(&mut self, count: usize, parent: u64, child: u64)
        requires ready { IsReadyMachine self.old }
        requires within { count ≤ length self.old.state.slots }
        ensures done { AreExited self.old.state (mapped_slots self.old.state count parent) child
            self.new.state }
        ensures size { self.new.state.page_size ≡ self.old.state.page_size }
        ensures ready { IsReadyMachine self.new }
    {
        for at in 0..count {
            if self.has_maps(at, parent) {
                self.exit_slot(at, child);
            }
        }
    }

    // Gives a child the maps that its parent has on all slots. Where a slot refuses, those that were made go again.
    pub(crate) fn fork_slots(&mut self, parent: u64, child: u64) -> Result<(), Refusal>
        requires ready { IsReadyMachine self.old }
        requires apart { parent ≢ child }
        ensures done { AreForked self.old.state parent child result self.new.state }
        ensures size { self.new.state.page_size ≡ self.old.state.page_size }
        ensures ready { IsReadyMachine self.new }
    {
        for at in 0..self.slots.len() {
            if let Err(refusal) = self.fork_slot(at, parent, child) {
                self.undo_fork(at, parent, child);
                return Err(refusal);
            }
        }
        Ok(())
    }
}
