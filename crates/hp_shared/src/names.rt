//! The list of a slot's names.
ghost use Rattle.std.specs.Prelude.{◌≡◌, ℕ, None, Err, IfOk, true, false};
ghost use Rattle.hp_model.specs.declared.answer.Answer.TheVariants.{Names as TheNames};
ghost use Rattle.hp_model.specs.declared.event.SlotEvent.TheVariants.{Ls};
ghost use Rattle.hp_model.specs.beside.Copying.{has_names};
ghost use Rattle.hp_model.specs.beside.Told.{told_answer};
ghost use Rattle.hp_model.specs.text.Writing.{IsWithinLimits};
ghost use Rattle.hp_events.specs.Answered.{Went};
ghost use Rattle.hp_events.specs.Replies.{is_trace_full, names_reply};

use hp_model::answer::{Answer, Reply};
use hp_model::copying::copied_names;
use hp_model::names::Names;
use hp_model::naming::Naming;
use hp_model::refusal::Refusal;
use hp_model::told::Told;
use hp_mount::Mount;
use std::alloc::{AllocError, Global};

// The names of a slot's files, and the same for an entry and a receipt.
#[derive(Drop)]
pub(crate) struct Listing {
    pub(crate) names: Result<Names, Refusal>,
    pub(crate) reply: Reply,
    pub(crate) again: Reply,
}

fn names_of(told: Told<'_>) -> Names
    requires { has_names (told_answer told) ≡ true }
    ensures { told_answer told.entry ≡ TheNames result }
{
    match told {
        Told::Names(names) => names,
        _ => unreachable!(),
    }
}

// The names of the files of a slot. Refused as NoSuchSlot where it is not mounted, and as OutOfMemory where the list has no
// room.
pub(crate) fn list<N: Naming>(mount: &Option<Mount<N>>) -> Result<Names, Refusal>
    ensures went { (size k : ℕ) → Went size k mount.now Ls (names_reply result) None mount.now }
    ensures noted { is_trace_full (names_reply result) ≡ false }
    ensures limits { IsWithinLimits (names_reply result) }
{
    match mount {
        None => Err(Refusal::NoSuchSlot),
        Some(mount) => match mount.ls() {
            Ok(told) => Ok(names_of(told)),
            Err(refusal) => Err(refusal),
        },
    }
}

fn copied_twice(alloc: Global, names: &Names) -> Result<(Names, Names), AllocError>
    ensures { IfOk result (λ both. (both.0 ≡ names.now) × (both.1 ≡ names.now)) }
{
    let first = copied_names(alloc, names)?;
    let second = copied_names(alloc, names)?;
    Ok((first, second))
}

// The names of the files of a slot, three times. Refused as NoSuchSlot, or as OutOfMemory where one has no room.
pub(crate) fn list_thrice<N: Naming>(alloc: Global, mount: &Option<Mount<N>>) -> Listing
    ensures went { (size k : ℕ) →
        Went size k mount.now Ls (names_reply result.names) None mount.now }
    ensures noted { is_trace_full (names_reply result.names) ≡ false }
    ensures limits { IsWithinLimits (names_reply result.names) }
    ensures reply { result.reply ≡ names_reply result.names }
    ensures again { result.again ≡ names_reply result.names }
{
    match list(mount) {
        Err(refusal) => refused(refusal),
        Ok(names) => match copied_twice(alloc, &names) {
            Err(AllocError) => refused(Refusal::OutOfMemory),
            Ok((first, second)) => Listing {
                names: Ok(names),
                reply: Ok(Answer::Names(first)),
                again: Ok(Answer::Names(second)),
            },
        },
    }
}

fn refused(refusal: Refusal) -> Listing
    ensures names { result.names ≡ Err refusal }
    ensures reply { result.reply ≡ Err refusal }
    ensures again { result.again ≡ Err refusal }
{
    Listing {
        names: Err(refusal),
        reply: Err(refusal),
        again: Err(refusal),
    }
}
