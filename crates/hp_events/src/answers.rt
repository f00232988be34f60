//! What a load, a store and a fault are answered.
ghost use Rattle.std.specs.Prelude.{◌≡◌, ◌≤◌, length, IfOk};
ghost use Rattle.hp_model.specs.declared.answer.Answer.TheVariants.{Done};
ghost use Rattle.hp_model.specs.beside.Accesses.{bytes_reply, done_reply};
ghost use Rattle.hp_model.specs.beside.Told.{told_answer, told_reply};
ghost use Rattle.hp_model.specs.Profile.{most_bytes};
ghost use Rattle.hp_model.specs.text.Writing.{IsWithinLimits};
ghost use Rattle.hp_events.specs.Fitting.{IsBytes};

use hp_model::refusal::Refusal;
use hp_model::told::Told;

/// The bytes of a load's reply.
#[inline(always)]
pub fn into_bytes<'b>(told: Result<Told<'b>, Refusal>) -> Result<&'b [u8], Refusal>
    requires bytes { IfOk told (λ told. IsBytes (told_answer told)) }
    requires limits { IsWithinLimits (told_reply told) }
    ensures reply { bytes_reply result ≡ told_reply told.entry }
    ensures few { IfOk result (λ bytes. length bytes.now ≤ most_bytes) }
{
    match told {
        Ok(Told::Bytes(bytes)) => Ok(bytes),
        Ok(_other) => unreachable!(),
        Err(refusal) => Err(refusal),
    }
}

/// That a store or a fault is done.
#[inline(always)]
pub fn into_done(told: Result<Told<'_>, Refusal>) -> Result<(), Refusal>
    requires { IfOk told (λ told. told_answer told ≡ Done) }
    ensures { done_reply result ≡ told_reply told.entry }
{
    match told {
        Ok(_done) => Ok(()),
        Err(refusal) => Err(refusal),
    }
}
