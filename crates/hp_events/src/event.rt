//! What is asked of a slot.
ghost use Rattle.std.specs.Prelude.{◌≡◌};
ghost use Rattle.hp_events.specs.Event.{is_exit, is_of_mount, with_home};

use hp_model::event::SlotEvent;
use hp_model::lent::Lent;

/// An event of a slot as it is asked for: names, options and bytes are the step's own, and nothing is copied.
pub type LentEvent<'x> = SlotEvent<Lent<'x>>;

/// Sets the home of the task, where the event is one of a task that is looked up.
#[inline(always)]
pub fn set_home(event: &mut LentEvent<'_>, at: u64)
    ensures { event.new ≡ with_home at event.old }
{
    match event {
        SlotEvent::Map { home, .. } => *home = at,
        SlotEvent::Anon { home, .. } => *home = at,
        SlotEvent::Fault { home, .. } => *home = at,
        SlotEvent::Load { home, .. } => *home = at,
        SlotEvent::Store { home, .. } => *home = at,
        _ => {}
    }
}

/// Whether it asks something of a mount: no mount, remount or umount of the slot, and nothing that goes by a task's maps.
#[inline(always)]
pub fn is_of_mount(event: &LentEvent<'_>) -> bool
    ensures { result ≡ is_of_mount event.now }
{
    !matches!(
        event,
        SlotEvent::Mount { .. }
            | SlotEvent::Remount { .. }
            | SlotEvent::Umount
            | SlotEvent::ForkMaps { .. }
            | SlotEvent::ExitMaps { .. }
    )
}

/// Whether a task's maps go.
pub fn is_exit(event: &LentEvent<'_>) -> bool
    ensures { result ≡ is_exit event.now }
{
    matches!(event, SlotEvent::ExitMaps { .. })
}
