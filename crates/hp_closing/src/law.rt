//! What was answered before a call began.
ghost use Rattle.hp_closing.specs.Time.{AnsweredFirst};

use hp_history::calls_stand_in_time;

/// Where a call's session had seen what another was answered, that stands before the call in the one order of all events.
pub fn answered_first()
    ensures { AnsweredFirst }
{
    calls_stand_in_time();
}
