//! Runs over the lines of an input.
ghost use Rattle.std.specs.Prelude.{◌≡◌, ◌≢◌, ◌≤◌, [], IfErr, OnOk};
ghost use Rattle.std.specs.Io.KnownBytes.{IsAtEnd};
ghost use Rattle.hp_model.specs.Profile.{most_page_bytes};
ghost use Rattle.hp_model.specs.run.Served.{ServesInput};
ghost use Rattle.hp_wire.specs.Reading.{HasCause, ServesRead};

use crate::ends::{Sink, Source};
use crate::fault::RunFault;
use crate::queue::Queue;
use crate::replies::Replies;
use crate::unanswered::Unanswered;
use hp_model::profile::MOST_INPUT_BYTES;
use hp_model::service::Service;
use std::alloc::{AllocError, Global};

/// The memory of a run over lines: for what is read, and for the text of the replies.
#[derive(Drop)]
pub struct Rooms {
    unanswered: Unanswered,
    replies: Replies,
    ghost unread: { unanswered ≡ [] },
    ghost none: { replies.text ≡ [] },
}

impl Rooms {
    /// All memory that a run wants but the service's.
    pub fn new(alloc: Global) -> Result<Rooms, AllocError> {
        let unanswered = Unanswered::new(alloc)?;
        let replies = Replies::new(alloc, 0)?;
        Ok(Rooms {
            unanswered,
            replies,
        })
    }
}

/// Answers the lines of the reader on the writer, one reply for each, and says how many lines there were.
///
/// All memory but the service's is asked for before the first read, and all replies to the lines that were read are
/// written before the next read. A line has at most `MOST_LINE_BYTES`, the input
/// `MOST_INPUT_BYTES`. `Memory` leaves everything as it was. After `Read` the lines that had ended are answered, and so
/// after `TooLong` those that had ended within the limit. After `Write` the steps that were done stand, and a front
/// of the text of their replies is written. A reader or a writer that cannot fail is never answered `Read` or
/// `Write`.
pub fn run_lines<R: Source, W: Sink, S: Service>(
    alloc: Global,
    reader: &mut R,
    writer: &mut W,
    service: &mut S,
) -> Result<u64, RunFault>
    requires page { S.page service.old ≤ most_page_bytes }
    requires ready { S.is_ready service.old }
    ensures served { ServesInput S.may_answer S.page R.remaining W.contents
        service.old service.new reader.old reader.new writer.old writer.new result }
    ensures whole { OnOk result (IsAtEnd (R.remaining reader.new)) }
    ensures sure_reader { R.is_sure reader.old → IfErr result (λ e. e ≢ RunFault.Read) }
    ensures sure_writer { W.is_sure writer.old → IfErr result (λ e. e ≢ RunFault.Write) }
    ensures lent { W.lent writer.new ≡ W.lent writer.old }
    ensures ready { S.is_ready service.new }
{
    match Rooms::new(alloc) {
        Ok(rooms) => run_lines_in(rooms, reader, writer, service),
        Err(AllocError) => Err(RunFault::Memory),
    }
}

/// Answers the lines as `run_lines` does, in memory that was asked for before. It asks for none but the service's.
pub fn run_lines_in<R: Source, W: Sink, S: Service>(
    rooms: Rooms,
    reader: &mut R,
    writer: &mut W,
    service: &mut S,
) -> Result<u64, RunFault>
    requires page { S.page service.old ≤ most_page_bytes }
    requires ready { S.is_ready service.old }
    ensures served { ServesRead S.may_answer (S.page service.old) service.old service.new
        (R.remaining reader.old, R.heard reader.old) (R.remaining reader.new, R.heard reader.new)
        (W.contents writer.old) (W.contents writer.new) result }
    ensures cause { HasCause (R.is_over reader.new) (R.has_failed reader.new)
        (W.has_failed writer.new) result }
    ensures reads_of { R.connection reader.new ≡ R.connection reader.old }
    ensures writes_to { W.connection writer.new ≡ W.connection writer.old }
    ensures whole { OnOk result (IsAtEnd (R.remaining reader.new)) }
    ensures sure_reader { R.is_sure reader.old → IfErr result (λ e. e ≢ RunFault.Read) }
    ensures sure_writer { W.is_sure writer.old → IfErr result (λ e. e ≢ RunFault.Write) }
    ensures lent { W.lent writer.new ≡ W.lent writer.old }
    ensures ready { S.is_ready service.new }
{
    let Rooms {
        mut unanswered,
        mut replies,
    } = rooms;
    replies.set_page(service.page_bytes());
    let mut queue = Queue::new();
    let mut total = 0u64;
    let mut count = 0u64;
    for _ in 0..MOST_INPUT_BYTES + 2 {
        let n = unanswered.read(reader, (MOST_INPUT_BYTES + 1 - total) as usize)?;
        let bytes = unanswered.bytes();
        if n == 0 {
            return replies.finish(bytes.len(), count, writer);
        }
        total += n as u64;
        if total > MOST_INPUT_BYTES {
            replies.answer_chunk(&bytes[..bytes.len() - 1], &mut queue, service, writer)?;
            return Err(RunFault::TooLong);
        }
        let (left, more) = replies.answer_chunk(bytes, &mut queue, service, writer)?;
        unanswered.keep_last(left);
        count += more;
    }
    Err(RunFault::TooLong)
}
