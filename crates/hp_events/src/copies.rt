//! An event with bytes of its own, for an entry and for a receipt.
ghost use Rattle.std.specs.Prelude.{◌≡◌, true, false, IfNone, IfOk, IfSome, OnErr};
ghost use Rattle.hp_model.specs.beside.Copying.{has_bytes};
ghost use Rattle.hp_events.specs.Copies.{AreCopiesFor, bytes_of_event};

use crate::event::LentEvent;
use hp_model::bytes::Bytes;
use hp_model::event::SlotEvent;
use std::alloc::{AllocError, Global};

// The event of one of these variants, with bytes in the field that is named first.
macro_rules! carrying {
    ($event:ident, $bytes:ident; $($name:ident { $own:ident; $($field:ident),* }),*) => {
        match *$event {
            $(SlotEvent::$name { $($field,)* .. } => {
                SlotEvent::$name { $own: $bytes, $($field),* }
            })*
            _ => unreachable!(),
        }
    };
}

// The event of one of these variants, which carry nothing.
macro_rules! plain {
    ($event:ident; $($name:ident { $($field:ident),* }),*) => {
        match *$event {
            $(SlotEvent::$name { $($field),* } => SlotEvent::$name { $($field),* },)*
            _ => unreachable!(),
        }
    };
}

/// The same bytes twice.
pub type Copies = (Bytes, Bytes);

// The options, the name or the bytes that an event has, if any.
fn carried<'x>(event: &LentEvent<'x>) -> Option<&'x [u8]>
    ensures some { IfSome result (λ bytes. bytes.now ≡ bytes_of_event event.now) }
    ensures has { IfSome result (λ bytes. has_bytes event.now ≡ true) }
    ensures none { IfNone result (has_bytes event.now ≡ false) }
{
    match event {
        SlotEvent::Mount { options } | SlotEvent::Remount { options } => Some(options.as_slice()),
        SlotEvent::Create { name }
        | SlotEvent::Unlink { name }
        | SlotEvent::Truncate { name, .. }
        | SlotEvent::Punch { name, .. }
        | SlotEvent::Preallocate { name, .. }
        | SlotEvent::Stat { name }
        | SlotEvent::Read { name, .. }
        | SlotEvent::Map { name, .. } => Some(name.as_slice()),
        SlotEvent::Store { bytes, .. } => Some(bytes.as_slice()),
        SlotEvent::Umount
        | SlotEvent::Anon { .. }
        | SlotEvent::Unmap { .. }
        | SlotEvent::Fault { .. }
        | SlotEvent::Load { .. }
        | SlotEvent::Ls
        | SlotEvent::Df
        | SlotEvent::ForkMaps { .. }
        | SlotEvent::ExitMaps { .. } => None,
    }
}

/// Two copies of what an event carries, for an entry and a receipt. Memory is asked for where that is anything.
pub fn copies(alloc: Global, event: &LentEvent<'_>) -> Result<Option<Copies>, AllocError>
    ensures copies { IfOk result (λ copies. AreCopiesFor event.now copies) }
    ensures memory { OnErr result (has_bytes event.now ≡ true) }
{
    let Some(bytes) = carried(event) else {
        return Ok(None);
    };
    let one = Bytes::copied(alloc, bytes)?;
    let two = Bytes::copied(alloc, bytes)?;
    Ok(Some((one, two)))
}

/// The event twice, with these copies of what it carries.
pub fn events(event: &LentEvent<'_>, copies: Option<Copies>) -> (SlotEvent<Bytes>, SlotEvent<Bytes>)
    requires { AreCopiesFor event.now copies }
    ensures one { result.0 ≡ event.now }
    ensures two { result.1 ≡ event.now }
{
    match copies {
        Some((one, two)) => (with_bytes(event, one), with_bytes(event, two)),
        None => (bare(event), bare(event)),
    }
}

// The event with these bytes.
fn with_bytes(event: &LentEvent<'_>, bytes: Bytes) -> SlotEvent<Bytes>
    requires has { has_bytes event.now ≡ true }
    requires bytes { bytes ≡ bytes_of_event event.now }
    ensures { result ≡ event.now }
{
    carrying!(
        event, bytes;
        Mount { options; },
        Remount { options; },
        Create { name; },
        Unlink { name; },
        Truncate { name; pages },
        Punch { name; from, to },
        Preallocate { name; from, to },
        Stat { name; },
        Read { name; index, offset, count },
        Map { name; task, home, from, pages, sharing, reserving },
        Store { bytes; task, home, map, index, offset }
    )
}

// The event, which carries nothing.
fn bare(event: &LentEvent<'_>) -> SlotEvent<Bytes>
    requires { has_bytes event.now ≡ false }
    ensures { result ≡ event.now }
{
    plain!(
        event;
        Umount {},
        Ls {},
        Df {},
        Anon { task, home, pages, sharing, reserving },
        Unmap { task, map, from, to },
        Fault { task, home, map, index, intent },
        Load { task, home, map, index, offset, count },
        ForkMaps { parent, child },
        ExitMaps { task }
    )
}
