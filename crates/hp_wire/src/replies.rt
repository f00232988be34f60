//! The replies that wait to be written.
ghost use Rattle.std.specs.Prelude.{◌≡◌, ◌≤◌, ◌++◌, [], length, Err, IfErr, IfOk, IsOk, OnOk};
ghost use Rattle.hp_model.specs.beside.Accesses.{bytes_reply, done_reply};
ghost use Rattle.hp_model.specs.beside.Told.{told_reply};
ghost use Rattle.hp_model.specs.text.Writing.{IsWithinLimits, line_of};
ghost use Rattle.hp_model.specs.Profile.{most_bytes, most_page_bytes};
ghost use Rattle.hp_wire.specs.Answered.{LosesNone};
ghost use Rattle.hp_wire.specs.Sent.{KeepsWriter, Writes, WritesFront};
ghost use Rattle.hp_wire.specs.Waiting.{HasRoomForOne};

use crate::ends::{Sink, write_whole};
use crate::fault::RunFault;
use hp_model::refusal::Refusal;
use hp_model::told::Told;
use hp_wire_lines::writing::{
    LONGEST, line_of_load, line_of_refusal, line_of_reply, line_of_store,
};
use std::alloc::{AllocError, Global};
use std::marker::Model;

const ROOM: usize = 131_072;

// The writer is asked whether replies are due once so many bytes of them have come, and behind each line that may touch much.
const STEP: usize = 1024;

/// The text of replies, where a page has `page` bytes.
#[derive(Drop)]
pub struct Replies {
    page: u64,
    waiting: Vec<u8>,
    // The writer is asked before the next line once so many bytes wait.
    ask_at: usize,
}

impl Model for Replies {
    ghost use Rattle.std.specs.Prelude.{◌≤◌, vec_capacity};
    ghost use Rattle.hp_model.specs.Profile.{most_page_bytes};
    ghost use Rattle.hp_wire.specs.Waiting.{Waiting};

    ghost Value = { Waiting };

    ghost view = { λ r. record { page = r.page; text = r.waiting.items } };

    ghost invariant = { λ r. (r.page ≤ most_page_bytes) × (131072 ≤ vec_capacity r.waiting)
        × (r.ask_at ≤ 64487) };
}

impl Replies {
    /// No replies yet. All memory for their text is asked for here.
    pub fn new(alloc: Global, page: u64) -> Result<Replies, AllocError>
        requires { page ≤ most_page_bytes }
        ensures { IfOk result (λ replies. (replies.page ≡ page) × (replies.text ≡ [])) }
    {
        let waiting = Vec::with_capacity(alloc, ROOM)?;
        Ok(Replies {
            page,
            waiting,
            ask_at: 0,
        })
    }

    /// From here on a page has so many bytes.
    pub fn set_page(&mut self, page: u64)
        requires { page ≤ most_page_bytes }
        ensures { self.new ≡ record self.old { page = page } }
    {
        self.page = page;
    }

    /// Adds the text of a reply.
    #[inline(always)]
    pub fn add(&mut self, reply: &Result<Told<'_>, Refusal>)
        requires limits { IsWithinLimits (told_reply reply.now) }
        requires room { HasRoomForOne self.old }
        ensures page { self.new.page ≡ self.old.page }
        ensures text { self.new.text ≡ self.old.text
            ++ line_of self.old.page (told_reply reply.now) }
    {
        line_of_reply(self.page, reply, &mut self.waiting);
    }

    /// Adds the text of what a load answered.
    #[inline(always)]
    pub fn add_loaded(&mut self, loaded: Result<&[u8], Refusal>)
        requires few { IfOk loaded (λ bytes. length bytes.now ≤ most_bytes) }
        requires room { HasRoomForOne self.old }
        ensures page { self.new.page ≡ self.old.page }
        ensures text { self.new.text ≡ self.old.text
            ++ line_of self.old.page (bytes_reply loaded.entry) }
    {
        line_of_load(loaded, &mut self.waiting);
    }

    /// Adds the text of what a store or a fault answered.
    #[inline(always)]
    pub fn add_ended(&mut self, ended: Result<(), Refusal>)
        requires room { HasRoomForOne self.old }
        ensures page { self.new.page ≡ self.old.page }
        ensures text { self.new.text ≡ self.old.text ++ line_of self.old.page (done_reply ended) }
    {
        line_of_store(ended, &mut self.waiting);
    }

    /// Adds the text of a refusal.
    #[inline(always)]
    pub fn add_refusal(&mut self, refusal: Refusal)
        requires room { HasRoomForOne self.old }
        ensures page { self.new.page ≡ self.old.page }
        ensures text { self.new.text ≡ self.old.text ++ line_of self.old.page (Err refusal) }
    {
        line_of_refusal(refusal, &mut self.waiting);
    }

    /// Makes room for one reply more: where there is none, or where they are due, writes out those that wait.
    #[inline(always)]
    pub fn make_room<W: Sink>(&mut self, writer: &mut W) -> Result<(), RunFault>
        ensures room { OnOk result (HasRoomForOne self.new) }
        ensures page { self.new.page ≡ self.old.page }
        ensures kept { OnOk result (LosesNone W.contents writer.old writer.new self.old self.new) }
        ensures cut { IfErr result (WritesFront W.contents writer.old writer.new self.old.text) }
        ensures writer { KeepsWriter W.is_sure W.lent W.connection W.has_failed
            writer.old writer.new result }
    {
        if self.waiting.len() < self.ask_at {
            return Ok(());
        }
        self.ask(writer)
    }

    // Writes out the replies that wait where there is no room for one more, or where the writer says that they are due.
    #[inline(never)]
    fn ask<W: Sink>(&mut self, writer: &mut W) -> Result<(), RunFault>
        ensures room { OnOk result (HasRoomForOne self.new) }
        ensures page { self.new.page ≡ self.old.page }
        ensures kept { OnOk result (LosesNone W.contents writer.old writer.new self.old self.new) }
        ensures cut { IfErr result (WritesFront W.contents writer.old writer.new self.old.text) }
        ensures writer { KeepsWriter W.is_sure W.lent W.connection W.has_failed
            writer.old writer.new result }
    {
        if self.waiting.len() > ROOM - LONGEST {
            return self.send(writer);
        }
        self.ask_at = (self.waiting.len() + STEP).min(ROOM - LONGEST + 1);
        if !writer.is_due() {
            return Ok(());
        }
        self.send(writer)
    }

    /// The line that comes may touch much: behind it the writer is asked whether replies are due.
    #[inline(always)]
    pub fn weigh(&mut self)
        ensures { self.new ≡ self.old }
    {
        self.ask_at = 0;
    }

    /// Writes out the replies that wait.
    pub fn send<W: Sink>(&mut self, writer: &mut W) -> Result<(), RunFault>
        ensures sent { OnOk result (Writes W.contents writer.old writer.new self.old.text) }
        ensures none { OnOk result (self.new.text ≡ []) }
        ensures page { self.new.page ≡ self.old.page }
        ensures cut { IfErr result (WritesFront W.contents writer.old writer.new self.old.text) }
        ensures writer { KeepsWriter W.is_sure W.lent W.connection W.has_failed
            writer.old writer.new result }
    {
        write_whole(writer, self.waiting.as_slice())?;
        self.waiting.clear();
        self.ask_at = 0;
        Ok(())
    }
}
