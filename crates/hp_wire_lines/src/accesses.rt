//! Loads, stores and faults, by what stands after the command's word. They are read with no step made of them.
ghost use Rattle.std.specs.Prelude.{◌≡◌, length};
ghost use Rattle.hp_model.specs.text.Reading.{fault_of, load_of, store_of};
ghost use Rattle.hp_wire_lines.specs.Accesses.{read_fault, read_load, read_store};

use crate::parts::intent;
use crate::words::Words;
use hp_model::refusal::Refusal;
use hp_model::service::Access;
use hp_model::step::Intent;

// Takes the numbers of an access, one after another.
macro_rules! access {
    ($words:ident: $($part:ident),*; offset = $offset:expr) => {{
        $(let $part = $words.number()?;)*
        let offset = $offset;
        Access { $($part,)* offset }
    }};
}

/// Reads a load and its count of bytes, or answers `BadLine`.
#[tactic(auto, unfolding(hp_model::specs::text::Reading::load_of))]
#[inline(always)]
pub fn loading(mut words: Words<'_>) -> Result<(Access, u64), Refusal>
    ensures { read_load result ≡ load_of words.entry }
{
    let access = access!(words: task, slot, map, index; offset = words.number()?);
    let count = words.number()?;
    words.end()?;
    Ok((access, count))
}

/// Reads a store and its bytes, into the front of the room, or answers `BadLine`.
#[tactic(auto, unfolding(hp_model::specs::text::Reading::store_of), using(crate::proofs::LastHex::then_last))]
#[inline(always)]
pub fn storing<'a>(mut words: Words<'_>, room: &'a mut [u8]) -> Result<(Access, &'a [u8]), Refusal>
    requires { length room.old ≡ 512 }
    ensures { read_store result ≡ store_of words.entry }
{
    let access = access!(words: task, slot, map, index; offset = words.number()?);
    let bytes = words.last_hex(room)?;
    Ok((access, bytes))
}

/// Reads a fault and its intent, or answers `BadLine`.
#[tactic(auto, unfolding(hp_model::specs::text::Reading::fault_of))]
#[inline(always)]
pub fn faulting(mut words: Words<'_>) -> Result<(Access, Intent), Refusal>
    ensures { read_fault result ≡ fault_of words.entry }
{
    let access = access!(words: task, slot, map, index; offset = 0);
    let intent = intent(&mut words)?;
    words.end()?;
    Ok((access, intent))
}
