//! One history of the events of all sessions, which no memory holds.
#![tactic(auto)]

ghost use Rattle.hp_history.specs.Ending.{AllAreThere, HistoriesAgree, HistoriesAreOne, HistoriesJoin, LookUpsBetween, MadeAreTold};
ghost use Rattle.hp_history.specs.History.{InTime};
ghost use Rattle.hp_history.specs.Reserved.{ReservedInRuns};

mod clock;
mod held;
mod history;
mod law;
mod section;

pub use clock::Clock;
pub use held::Held;
pub use history::{History, Opened};
use hp_laws::trails_join;
pub use law::{Change, Law, Places, Shape, Stepped, Token, View};
pub use section::Answered;

/// Look-ups that agree with the table at their places, put between the events of a run, are events of it.
pub fn look_ups_stand_between()
    ensures { LookUpsBetween }
{}

/// Once one seat has all parts and all sessions, one list joins all trails and all receipts, look-ups in words among them; where
/// the trails are runs of the parts, it is a run of the machine.
pub fn histories_are_one()
    ensures { HistoriesAreOne }
{
    trails_join();
}

/// The same where no home is looked up in a word: the very list that an audit's answer is about.
pub fn histories_join()
    ensures { HistoriesJoin }
{
    trails_join();
}

/// Trails and receipts that are parts of one history never disagree, so no audit of them answers that they differ.
pub fn histories_agree()
    ensures { HistoriesAgree }
{}

/// In a run of events no access at an index that is reserved to its map just before it, and no owner's store into its copy, is
/// refused for want of a huge page.
pub fn reserved_in_runs()
    ensures { ReservedInRuns }
{}

/// Whatever front of the order was seen: what a session had made by then stands before what another has still to make.
pub fn calls_stand_in_time()
    ensures { InTime }
{}

/// So many of an order's events are a session's as it was told of.
pub fn made_are_told()
    ensures { MadeAreTold }
{}

/// A seat that has as many slots as there are, and as many sessions as were opened, has them all.
pub fn all_are_there()
    ensures { AllAreThere }
{}
