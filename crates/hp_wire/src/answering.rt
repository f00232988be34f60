//! The answers to lines.
ghost use Rattle.std.specs.Prelude.{◌≡◌, ◌+◌, ◌<◌, ◌^◌, [], length, IfErr, IfOk, OnOk, false};
ghost use Rattle.hp_model.specs.text.Lines.{ended};
ghost use Rattle.hp_model.specs.text.Reading.{fault_of, step_of, step_of_command};
ghost use Rattle.hp_wire.specs.Added.{AddsAnswer, AddsReply};
ghost use Rattle.hp_wire.specs.Sent.{KeepsWriter, Writes, WritesFront};
ghost use Rattle.hp_model.specs.run.Served.{text_of_refusals, unended_by};
ghost use Rattle.hp_wire.specs.Waiting.{HasRoomForOne};
ghost use Rattle.hp_wire_lines.specs.Accesses.{is_access};

use crate::ends::Sink;
use crate::fault::RunFault;
use crate::queue::Queue;
use crate::replies::Replies;
use hp_model::profile::MOST_LINE_BYTES;
use hp_model::refusal::Refusal;
use hp_model::service::Service;
use hp_model::step::Step;
use hp_model::told::Told;
use hp_text::pieces::first_long_piece;
use hp_wire_lines::accesses::{faulting, loading, storing};
use hp_wire_lines::reading::{LineKind, kind_of_line, step_of_word};
use hp_wire_lines::words::Words;

// The room for the bytes of a store that is read, or of a page that is shown: made once for many lines.
pub(crate) const ROOM: usize = 512;

impl Replies {
    // Answers one line, for whose reply there is room.
    #[inline(always)]
    pub(crate) fn add_reply<S: Service>(
        &mut self,
        line: &[u8],
        room: &mut [u8; ROOM],
        service: &mut S,
    )
        requires ready { S.is_ready service.old }
        requires room { HasRoomForOne self.old }
        ensures answered { AddsReply S.may_answer (step_of (ended line.now))
            service.old service.new self.old self.new }
        ensures ready { S.is_ready service.new }
    {
        if line.len() > MOST_LINE_BYTES {
            return self.add_refusal(Refusal::LineTooLong);
        }
        match kind_of_line(line) {
            Ok(LineKind::Load(words)) => match loading(words) {
                Ok((access, count)) => {
                    let loaded = service.load(&access, count, room);
                    self.add_loaded(loaded);
                }
                Err(refusal) => self.add_refusal(refusal),
            },
            Ok(LineKind::Store(words)) => match storing(words, room) {
                Ok((access, bytes)) => {
                    let stored = service.store(&access, bytes);
                    self.add_ended(stored);
                }
                Err(refusal) => self.add_refusal(refusal),
            },
            Ok(LineKind::Fault(words)) => self.add_fault(words, service),
            Ok(LineKind::Other { word, mut words }) => {
                self.add_other(word, &mut words, room, service)
            }
            Err(refusal) => self.add_refusal(refusal),
        }
    }

    // Does the fault of these words.
    #[inline(never)]
    fn add_fault<S: Service>(&mut self, words: Words<'_>, service: &mut S)
        requires ready { S.is_ready service.old }
        requires room { HasRoomForOne self.old }
        ensures answered { AddsReply S.may_answer (fault_of words.entry)
            service.old service.new self.old self.new }
        ensures ready { S.is_ready service.new }
    {
        match faulting(words) {
            Ok((access, intent)) => {
                let ended = service.fault(&access, intent);
                self.add_ended(ended);
            }
            Err(refusal) => self.add_refusal(refusal),
        }
    }

    // Answers a line by its step, which this word and these words after it make: apart, so that no line pays for this
    // that has none.
    #[inline(never)]
    fn add_other<S: Service>(
        &mut self,
        word: &[u8],
        words: &mut Words<'_>,
        room: &mut [u8; ROOM],
        service: &mut S,
    )
        requires ready { S.is_ready service.old }
        requires room { HasRoomForOne self.old }
        requires other { is_access word.now ≡ false }
        ensures answered { AddsReply S.may_answer (step_of_command word.now words.old)
            service.old service.new self.old self.new }
        ensures ready { S.is_ready service.new }
    {
        match step_of_word(word, words) {
            Ok(step) => {
                if touches_much(&step) {
                    self.weigh();
                }
                self.add_answer(&step, room, service);
            }
            Err(refusal) => self.add_refusal(refusal),
        }
    }

    // Does a step, and adds the line of its reply.
    #[inline(always)]
    fn add_answer<S: Service>(&mut self, step: &Step<'_>, room: &mut [u8; ROOM], service: &mut S)
        requires ready { S.is_ready service.old }
        requires room { HasRoomForOne self.old }
        ensures answered { AddsAnswer S.may_answer step.now
            service.old service.new self.old self.new }
        ensures ready { S.is_ready service.new }
    {
        let mut reply = Ok(Told::Done);
        service.answer(step, room, &mut reply);
        self.add(&reply);
    }

    /// Answers the line that the input ends in, of which so many bytes are held, where it ends in one, and says how many
    /// lines there were with those before.
    pub fn finish<W: Sink>(
        &mut self,
        held: usize,
        count: u64,
        writer: &mut W,
    ) -> Result<u64, RunFault>
        requires none { self.old.text ≡ [] }
        requires count { count < 2 ^ 63 }
        ensures count { IfOk result (λ n. n ≡ count + length (unended_by held)) }
        ensures written { OnOk result (Writes W.contents writer.old writer.new
            (text_of_refusals self.old.page (unended_by held))) }
        ensures cut { IfErr result (WritesFront W.contents writer.old writer.new
            (text_of_refusals self.old.page (unended_by held))) }
        ensures writer { KeepsWriter W.is_sure W.lent W.connection W.has_failed
            writer.old writer.new result }
    {
        let mut lines = count;
        if held > 0 {
            let refusal = if held <= MOST_LINE_BYTES {
                Refusal::BadLine
            } else {
                Refusal::LineTooLong
            };
            self.add_refusal(refusal);
            lines += 1;
        }
        self.send(writer)?;
        Ok(lines)
    }
}

// Whether a step may touch more than a constant: maps and pages, however many.
fn touches_much(step: &Step<'_>) -> bool {
    matches!(
        step,
        Step::Fork { .. }
            | Step::Exit { .. }
            | Step::Mount { .. }
            | Step::Remount { .. }
            | Step::Umount { .. }
            | Step::Unlink { .. }
            | Step::Truncate { .. }
            | Step::Punch { .. }
            | Step::Preallocate { .. }
            | Step::Map { .. }
            | Step::Anon { .. }
            | Step::Unmap { .. }
            | Step::Nr { .. }
            | Step::Ls { .. }
    )
}
