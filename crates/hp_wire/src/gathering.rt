//! Answers to lines of which loads, stores and faults are done several at a time.
ghost use Rattle.std.specs.Prelude.{◌≡◌, ◌<◌, ◌++◌, ◌∷◌, [], List, length, IfErr, IfOk, OnOk, false};
ghost use Rattle.hp_model.specs.text.Lines.{Line, ended, ended_lines};
ghost use Rattle.hp_model.specs.text.Writing.{line_of};
ghost use Rattle.hp_wire.specs.Answered.{AnswersAll, AnswersSome, RunsAll, RunsSome};
ghost use Rattle.hp_wire.specs.Queues.{AddsText, AreRead, CutsText, TakesLine, queued_text};
ghost use Rattle.hp_wire.specs.Sent.{KeepsWriter};
ghost use Rattle.hp_wire.specs.Unanswered.{CountsLines};
ghost use Rattle.hp_wire.specs.Waiting.{HasRoomForOne};

use crate::answering::ROOM;
use crate::ends::Sink;
use crate::fault::RunFault;
use crate::queue::Queue;
use crate::replies::Replies;
use hp_model::queued::Queued;
use hp_model::service::Service;
use hp_model::told::Told;
use hp_text::pieces::first_long_piece;

impl Replies {
    /// Answers the lines that end in these bytes, and writes out their replies. It says how many bytes follow the last of
    /// the lines, and how many lines there were. Where the service takes several at once, loads, stores and faults wait for
    /// those behind them.
    pub fn answer_chunk<W: Sink, S: Service>(
        &mut self,
        chunk: &[u8],
        queue: &mut Queue,
        service: &mut S,
        writer: &mut W,
    ) -> Result<(usize, u64), RunFault>
        requires ready { S.is_ready service.old }
        requires none { self.old.text ≡ [] }
        requires no_queue { queue.old ≡ [] }
        ensures ran { OnOk result (RunsAll S.may_answer W.contents self.old.page
            (ended_lines chunk.now) service.old service.new writer.old writer.new) }
        ensures cut { IfErr result (RunsSome S.may_answer W.contents self.old.page
            (ended_lines chunk.now) service.old service.new writer.old writer.new) }
        ensures counts { IfOk result (CountsLines chunk.now) }
        ensures none { OnOk result (self.new.text ≡ []) }
        ensures no_queue { OnOk result (queue.new ≡ []) }
        ensures page { self.new.page ≡ self.old.page }
        ensures writer { KeepsWriter W.is_sure W.lent W.connection W.has_failed
            writer.old writer.new result }
        ensures ready { S.is_ready service.new }
    {
        // What waits in the queue waits for lines behind it, and nothing does at the end.
        let several = service.takes_several();
        let mut room = [0u8; ROOM];
        let mut rest = chunk;
        let mut count = 0u64;
        loop {
            let (line, after) = first_long_piece(b'\n', rest);
            match after {
                Some(after) => {
                    self.take_line(line, several, queue, &mut room, service, writer)?;
                    count += 1;
                    rest = after;
                }
                None => {
                    if !several {
                        self.send(writer)?;
                        return Ok((rest.len(), count));
                    }
                    self.answer_queued(queue, &mut room, service, writer)?;
                    self.send(writer)?;
                    return Ok((rest.len(), count));
                }
            }
        }
    }

    // Takes a line into the queue, and answers all that waits once that is full; a line that can't wait is answered behind
    // those that do. Where not several are done at once none waits.
    #[inline(always)]
    fn take_line<W: Sink, S: Service>(
        &mut self,
        line: &[u8],
        several: bool,
        queue: &mut Queue,
        room: &mut [u8; ROOM],
        service: &mut S,
        writer: &mut W,
    ) -> Result<(), RunFault>
        requires ready { S.is_ready service.old }
        requires few { length queue.old < 16 }
        requires alone { several ≡ false → queue.old ≡ [] }
        ensures taken { OnOk result ((waiting : List Line) → AreRead waiting queue.old
            → TakesLine S.may_answer W.contents (waiting ++ ended line.now ∷ [])
            service.old service.new writer.old writer.new self.old self.new queue.new) }
        ensures cut { IfErr result (λ fault. (waiting : List Line) → AreRead waiting queue.old
            → AnswersSome S.may_answer W.contents (waiting ++ ended line.now ∷ [])
            service.old service.new writer.old writer.new self.old fault) }
        ensures few { OnOk result (length queue.new < 16) }
        ensures alone { OnOk result (several ≡ false → queue.new ≡ []) }
        ensures page { self.new.page ≡ self.old.page }
        ensures writer { KeepsWriter W.is_sure W.lent W.connection W.has_failed
            writer.old writer.new result }
        ensures ready { S.is_ready service.new }
    {
        if several {
            if queue.take(line, room) {
                if queue.is_full() {
                    return self.answer_queued(queue, room, service, writer);
                }
                return Ok(());
            }
            self.answer_queued(queue, room, service, writer)?;
        }
        self.make_room(writer)?;
        self.add_reply(line, room, service);
        Ok(())
    }

    // Does all that waits, and adds the replies.
    #[inline(never)]
    fn answer_queued<W: Sink, S: Service>(
        &mut self,
        queue: &mut Queue,
        room: &mut [u8; ROOM],
        service: &mut S,
        writer: &mut W,
    ) -> Result<(), RunFault>
        requires { S.is_ready service.old }
        ensures answered { OnOk result ((lines : List Line) → AreRead lines queue.old
            → AnswersAll S.may_answer W.contents lines
            service.old service.new writer.old writer.new self.old self.new) }
        ensures cut { IfErr result (λ fault. (lines : List Line) → AreRead lines queue.old
            → AnswersSome S.may_answer W.contents lines
            service.old service.new writer.old writer.new self.old fault) }
        ensures none { OnOk result (queue.new ≡ []) }
        ensures page { self.new.page ≡ self.old.page }
        ensures writer { KeepsWriter W.is_sure W.lent W.connection W.has_failed
            writer.old writer.new result }
        ensures ready { S.is_ready service.new }
    {
        queue.do_all(service, room);
        self.add_queued(queue, writer)?;
        queue.clear();
        Ok(())
    }

    // Adds the replies of all that was done.
    fn add_queued<W: Sink>(&mut self, queue: &Queue, writer: &mut W) -> Result<(), RunFault>
        ensures added { OnOk result (AddsText W.contents writer.old writer.new self.old self.new
            (queued_text self.old.page queue.now)) }
        ensures cut { IfErr result (CutsText W.contents writer.old writer.new self.old
            (queued_text self.old.page queue.now)) }
        ensures page { self.new.page ≡ self.old.page }
        ensures writer { KeepsWriter W.is_sure W.lent W.connection W.has_failed
            writer.old writer.new result }
    {
        let waiting = queue.as_slice();
        for at in 0..waiting.len() {
            self.make_room(writer)?;
            self.add_done(&waiting[at]);
        }
        Ok(())
    }

    // Adds the reply of a load, a store or a fault that was done.
    #[inline(always)]
    fn add_done(&mut self, queued: &Queued)
        requires { HasRoomForOne self.old }
        ensures text { self.new.text ≡ self.old.text ++ line_of self.old.page queued.now.reply }
        ensures page { self.new.page ≡ self.old.page }
    {
        match queued.reply() {
            Ok(Told::Bytes(bytes)) => self.add_loaded(Ok(bytes)),
            Ok(Told::Done) => self.add_ended(Ok(())),
            told => self.add(&told),
        }
    }
}
