//! A slot's reply, for an entry or a receipt.
ghost use Rattle.std.specs.Prelude.{◌≡◌, false};
ghost use Rattle.hp_model.specs.beside.Copying.{reply_has_names};
ghost use Rattle.hp_model.specs.beside.Told.{told_reply};
ghost use Rattle.hp_model.specs.text.Writing.{IsWithinLimits};
ghost use Rattle.hp_events.specs.Replies.{is_trace_full};

use hp_model::answer::Reply;
use hp_model::refusal::Refusal;
use hp_model::told::Told;

// The reply as it stands, for an entry or a receipt: its bytes are copied.
pub(crate) fn copied(told: &Result<Told<'_>, Refusal>) -> Reply
    requires small { IsWithinLimits (told_reply told.now) }
    requires plain { reply_has_names (told_reply told.now) ≡ false }
    ensures { result ≡ told_reply told.now }
{
    match told {
        Ok(answer) => Ok(answer.copied()),
        Err(refusal) => Err(*refusal),
    }
}

// Whether there was no room in a trail.
pub(crate) fn is_full(told: &Result<Told<'_>, Refusal>) -> bool
    ensures { result ≡ is_trace_full (told_reply told.now) }
{
    matches!(told, Err(Refusal::TraceFull))
}
